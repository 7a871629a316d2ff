// A rate of one's own, added from outside: sixteen lanes, fifteen pairs in a marker period of 10,200 ticks.
#![tactic(auto)]

ghost use Rattle.std.specs.Prelude.{refl};
ghost use Rattle.lanes.specs.Letters.{layout_of};
ghost use Rattle.lanes.specs.Markers.{wrong};
ghost use Rattle.lanes.proofs.Tables.{lawful};

use lanes::{Rate, marker_of};

// The letters a, b, u, v and w of each lane's marker.
const LETTERS: [[u8; 5]; 16] = [
    [0xAB, 0x4A, 0x87, 0xF6, 0x5F],
    [0x7C, 0x3C, 0x96, 0x69, 0x02],
    [0xE6, 0xCF, 0x82, 0x0B, 0x95],
    [0x42, 0x2E, 0x7D, 0x47, 0xD3],
    [0x78, 0xF3, 0x43, 0x3B, 0x6E],
    [0xD5, 0x7B, 0xBD, 0xD7, 0xFB],
    [0x60, 0x1C, 0xE9, 0xE6, 0x8A],
    [0xB8, 0x39, 0x7D, 0x81, 0xB7],
    [0xAA, 0x01, 0x8E, 0xB6, 0x23],
    [0x66, 0x2E, 0x96, 0xBB, 0x1E],
    [0xB8, 0xE9, 0x6F, 0x95, 0xDC],
    [0x3E, 0x95, 0x43, 0x42, 0xBF],
    [0x22, 0x2C, 0x01, 0x8A, 0xF5],
    [0x19, 0xE3, 0xD9, 0x2A, 0x9E],
    [0x45, 0xB3, 0x93, 0x81, 0x0A],
    [0xE1, 0x2D, 0xE2, 0x1B, 0xAA],
];

pub struct Rate10200;

impl Rate for Rate10200 {
    ghost use Rattle.rate_10200.specs.declared.TheConstants.{LETTERS};

    const LANES: usize = 16;

    const PAIRS: usize = 15;

    ghost LANES = { 16 };

    ghost PAIRS = { 15 };

    ghost layout = { layout_of LETTERS 15 };

    ghost constants = { (refl, refl) };

    ghost lawful = { lawful LETTERS 15 (unfold wrong in refl) };

    fn marker(lane: usize) -> [u8; 15] {
        marker_of(&LETTERS, lane)
    }
}

#[cfg(test)]
mod tests {
    use super::Rate10200;
    use lanes::{Event, Lock, Rate, found_lane, lane_count, passes, period};
    use std::process::Abort;
    use std::test::Fail;

    // The window in which a lane's marker came as it was sent.
    fn sent<R: Rate>(lane: usize) -> u128 {
        R::marker(lane).iter().rev().fold(
            0,
            |bits, octet| bits % (1 << 112) * 256 + u128::from(*octet),
        )
    }

    // Steps a position through `ticks` ticks of one window, on which nothing is told.
    fn stay<R: Rate>(
        lock: &mut Lock,
        ticks: usize,
        window: u128,
        rt: &impl Abort,
    ) -> Result<(), Fail> {
        for _ in 0..ticks {
            assert_eq!(rt; lock.step::<R>(Some(window)), Event::Quiet);
        }
        Ok(())
    }

    // Searches, waits, locks, and is lost by five failures in a row.
    fn runs<R: Rate>(lane: usize, rt: &impl Abort) -> Result<(), Fail> {
        let marker = sent::<R>(lane);
        let left = period::<R>();
        let mut lock = Lock::Searching;
        stay::<R>(&mut lock, 3, 0, rt)?;
        assert_eq!(rt; lock.step::<R>(Some(marker)), Event::Waits);
        assert_eq!(rt; lock, Lock::Waiting { lane, left });
        stay::<R>(&mut lock, left.saturating_sub(1), marker, rt)?;
        assert_eq!(rt; lock.step::<R>(Some(marker)), Event::Locks);
        for failures in 1..5u8 {
            stay::<R>(&mut lock, left.saturating_sub(1), 0, rt)?;
            assert_eq!(rt; lock.step::<R>(Some(0)), Event::Fails);
            assert_eq!(rt;
                lock,
                Lock::Locked {
                    lane,
                    left,
                    failures
                }
            );
        }
        stay::<R>(&mut lock, left.saturating_sub(1), marker, rt)?;
        assert_eq!(rt; lock.step::<R>(Some(0)), Event::FifthFailure);
        assert_eq!(rt; lock, Lock::Searching);
        Ok(())
    }

    #[test]
    fn a_position_waits_locks_and_is_lost(rt: HostRuntime) -> Result<(), Fail> {
        assert_eq!(rt; period::<Rate10200>(), 10200);
        runs::<Rate10200>(11, &rt)
    }

    #[test]
    fn each_marker_passes_for_its_lane_alone(rt: HostRuntime) -> Result<(), Fail> {
        assert_eq!(rt; lane_count::<Rate10200>(), 16);
        for lane in 0..16usize {
            let window = sent::<Rate10200>(lane);
            assert_eq!(rt; found_lane::<Rate10200>(window), Some(lane));
            let passed = (0..20usize)
                .filter(|other| passes::<Rate10200>(window, *other))
                .count();
            assert_eq!(rt; passed, 1);
        }
        Ok(())
    }
}
