// Hunts over planted markers, with answers worked by hand.
#![tactic(auto)]

#[cfg(test)]
mod tests {
    use code::WatchEngine;
    use lanes::{Rate, marker_symbol, period};
    use rate_10200::Rate10200;
    use rates::{Rate200, Rate400, RateShort};
    use receiver::{Hunting, Refusal, Told};
    use std::array;
    use std::test::Fail;

    // The short rate's ticks from marker to marker, and the bits of a marker.
    const P: u64 = 21760;

    const M: u64 = 120;

    const NEVER: u64 = 1 << 40;

    // What comes to a position: the markers of a lane, and zeros between them. Marker k begins with tick start + k P + 1, less
    // `cut` bits that lie before the first. Those from `spoilt` on, `spoils` of them, come as zeros.
    #[derive(Clone, Copy)]
    struct Signal {
        lane: usize,
        start: u64,
        cut: u64,
        spoilt: u64,
        spoils: u64,
    }

    // Each position has the lane of its own number, and starts with its marker.
    fn straight() -> [Signal; 16] {
        array::from_fn(|lane| Signal {
            lane,
            start: 0,
            cut: 0,
            spoilt: 0,
            spoils: 0,
        })
    }

    // The bit that a position gets on a tick; the first is tick 1.
    fn bit_of<R: Rate>(signal: Signal, tick: u64) -> u32 {
        let Some(index) = tick
            .saturating_add(signal.cut)
            .checked_sub(signal.start.saturating_add(1))
        else {
            return 0;
        };
        let period = (period::<R>() as u64).max(1);
        let (marker, place) = (index / period, index % period);
        let spoilt = marker >= signal.spoilt && marker - signal.spoilt < signal.spoils;
        if place >= M || spoilt {
            return 0;
        }
        let symbol = marker_symbol::<R>(signal.lane, (place / 10) as usize);
        u32::from(symbol >> (place % 10) & 1)
    }

    fn word_of<R: Rate>(signals: &[Signal; 16], tick: u64) -> u32 {
        let mut word = 0;
        for (i, signal) in signals.iter().enumerate() {
            if i < R::LANES && i < 16 {
                word |= bit_of::<R>(*signal, tick) << i;
            }
        }
        word
    }

    // Ticks a receiver until it tells something, from the tick after `from` on; the tick that tells it.
    fn hunt<R: Rate>(
        receiver: &mut Hunting<R, WatchEngine>,
        signals: &[Signal; 16],
        from: u64,
    ) -> Result<(u64, Told), Fail> {
        for tick in from.saturating_add(1)..from.saturating_add(4_000_000) {
            let told = receiver.tick(word_of::<R>(signals, tick))?;
            if told != Told::Quiet {
                return Ok((tick, told));
            }
        }
        Ok((0, Told::Quiet))
    }

    // What a hunt from its beginning tells first, and when.
    fn first<R: Rate>(signals: &[Signal; 16]) -> Result<(u64, Told), Fail> {
        let mut receiver = Hunting::<R, WatchEngine>::new(WatchEngine::new());
        hunt(&mut receiver, signals, 0)
    }

    // Layer, cause, position and ticks of a setback; zeros where it is none.
    fn setback(told: Told) -> (u8, u8, usize, u64) {
        match told {
            Told::Setback(fault) => (
                fault.layer(),
                fault.cause(),
                fault.position(),
                fault.ticks(),
            ),
            _ => (0, 0, 0, 0),
        }
    }

    #[test]
    fn all_starts_zero_at_the_short_rate_are_ready_on_tick_21880(
        rt: HostRuntime,
    ) -> Result<(), Fail> {
        assert_eq!(rt; first::<RateShort>(&straight())?, (21880, Told::Ready));
        Ok(())
    }

    // All starts 0: the tick on which a receiver is ready. Between markers all bits are 0.
    fn ready_tick<R: Rate>() -> Result<(u64, Told), Fail> {
        let signals = straight();
        let mut receiver = Hunting::<R, WatchEngine>::new(WatchEngine::new());
        let period = (period::<R>() as u64).max(1);
        for tick in 1..4_000_000u64 {
            let word = if (tick - 1) % period < M {
                word_of::<R>(&signals, tick)
            } else {
                0
            };
            let told = receiver.tick(word)?;
            if told != Told::Quiet {
                return Ok((tick, told));
            }
        }
        Ok((0, Told::Quiet))
    }

    #[test]
    fn all_starts_zero_are_ready_a_period_later_at_each_rate(rt: HostRuntime) -> Result<(), Fail> {
        assert_eq!(rt; ready_tick::<Rate200>()?, (2_785_400, Told::Ready));
        assert_eq!(rt; ready_tick::<Rate400>()?, (2_785_400, Told::Ready));
        assert_eq!(rt; ready_tick::<Rate10200>()?, (10_320, Told::Ready));
        Ok(())
    }

    #[test]
    fn lanes_come_in_any_order(rt: HostRuntime) -> Result<(), Fail> {
        let mut signals = straight();
        for i in 0..16usize {
            signals[i].lane = 15 - i;
            signals[i].start = 10 * i as u64;
        }
        let mut receiver = Hunting::<Rate10200, WatchEngine>::new(WatchEngine::new());
        assert_eq!(rt; receiver.lane(0), None);
        assert_eq!(rt; receiver.skew(0), None);
        assert_eq!(rt; hunt(&mut receiver, &signals, 0)?, (10_470, Told::Ready));
        assert!(rt; receiver.is_ready());
        assert_eq!(rt; receiver.accepted_ticks(), 10_470);
        for i in 0..16usize {
            assert_eq!(rt; receiver.lane(i), Some(15 - i));
            assert_eq!(rt; receiver.skew(i), Some(10 * i as i64 - 150));
        }
        assert_eq!(rt; receiver.lane(16), None);
        assert_eq!(rt; receiver.skew(16), None);
        Ok(())
    }

    #[test]
    fn skew_of_4781_is_ready_and_4782_a_setback(rt: HostRuntime) -> Result<(), Fail> {
        let mut signals = straight();
        signals[5].start = 4781;
        let mut receiver = Hunting::<RateShort, WatchEngine>::new(WatchEngine::new());
        assert_eq!(rt;
            hunt(&mut receiver, &signals, 0)?,
            (P + M + 4781, Told::Ready)
        );
        assert_eq!(rt; receiver.skew(5), Some(0));
        assert_eq!(rt; receiver.skew(0), Some(-4781));
        signals[5].start = 4782;
        let (tick, told) = first::<RateShort>(&signals)?;
        assert_eq!(rt; tick, P + M + 4782);
        assert_eq!(rt; setback(told), (2, 3, 5, P + M + 4782));
        Ok(())
    }

    // Position 5 lacks the first bit of its first marker, so it locks a period later, and the others' markers come behind its.
    #[test]
    fn skew_is_signed(rt: HostRuntime) -> Result<(), Fail> {
        let mut signals = straight();
        signals[5].cut = 1;
        signals[2].start = 4780;
        let mut receiver = Hunting::<RateShort, WatchEngine>::new(WatchEngine::new());
        assert_eq!(rt;
            hunt(&mut receiver, &signals, 0)?,
            (2 * P + M - 1, Told::Ready)
        );
        assert_eq!(rt; receiver.skew(5), Some(0));
        assert_eq!(rt; receiver.skew(0), Some(1));
        assert_eq!(rt; receiver.skew(2), Some(4781));
        signals[2].start = 4781;
        let (tick, told) = first::<RateShort>(&signals)?;
        assert_eq!(rt; tick, 2 * P + M - 1);
        assert_eq!(rt; setback(told), (2, 3, 5, 2 * P + M - 1));
        Ok(())
    }

    // One marker behind that of the last lock and one before it: each is near enough, and the two are too far apart.
    #[test]
    fn skew_is_the_largest_less_the_smallest(rt: HostRuntime) -> Result<(), Fail> {
        let mut signals = straight();
        for i in 0..8usize {
            signals[i].start = 2400;
        }
        signals[1].start = 4800;
        signals[6].start = 0;
        signals[6].cut = 0;
        signals[3].start = 2399;
        signals[3].spoilt = 0;
        signals[3].spoils = 1;
        let mut receiver = Hunting::<RateShort, WatchEngine>::new(WatchEngine::new());
        let (tick, told) = hunt(&mut receiver, &signals, 0)?;
        assert_eq!(rt; tick, 2 * P + M + 2399);
        assert_eq!(rt; setback(told), (2, 3, 3, 2 * P + M + 2399));
        Ok(())
    }

    #[test]
    fn a_lane_twice_names_the_lowest_that_shares_its_lane(rt: HostRuntime) -> Result<(), Fail> {
        let mut signals = straight();
        signals[3].lane = 2;
        signals[5].lane = 7;
        signals[2].lane = 3;
        signals[6].lane = 4;
        signals[6].start = 50;
        let (tick, told) = first::<RateShort>(&signals)?;
        assert_eq!(rt; tick, P + M + 50);
        assert_eq!(rt; setback(told), (2, 2, 4, P + M + 50));
        Ok(())
    }

    #[test]
    fn a_lane_twice_comes_before_skew(rt: HostRuntime) -> Result<(), Fail> {
        let mut signals = straight();
        signals[6].lane = 1;
        signals[6].start = 5000;
        let (tick, told) = first::<RateShort>(&signals)?;
        assert_eq!(rt; tick, P + M + 5000);
        assert_eq!(rt; setback(told), (2, 2, 1, P + M + 5000));
        Ok(())
    }

    // A position that never locks keeps the receiver hunting.
    fn one_silent() -> [Signal; 16] {
        let mut signals = straight();
        signals[7].start = NEVER;
        signals
    }

    #[test]
    fn five_failures_in_a_row_are_a_setback(rt: HostRuntime) -> Result<(), Fail> {
        let mut signals = one_silent();
        signals[4].spoilt = 2;
        signals[4].spoils = 9;
        let (tick, told) = first::<RateShort>(&signals)?;
        assert_eq!(rt; tick, 6 * P + M);
        assert_eq!(rt; setback(told), (1, 1, 4, 6 * P + M));
        signals[2].spoilt = 2;
        signals[2].spoils = 9;
        let (tick, told) = first::<RateShort>(&signals)?;
        assert_eq!(rt; tick, 6 * P + M);
        assert_eq!(rt; setback(told), (1, 1, 2, 6 * P + M));
        Ok(())
    }

    #[test]
    fn five_failures_come_before_the_last_lock(rt: HostRuntime) -> Result<(), Fail> {
        let mut signals = straight();
        signals[4].spoilt = 2;
        signals[4].spoils = 9;
        signals[7].start = 5 * P;
        let (tick, told) = first::<RateShort>(&signals)?;
        assert_eq!(rt; tick, 6 * P + M);
        assert_eq!(rt; setback(told), (1, 1, 4, 6 * P + M));
        Ok(())
    }

    #[test]
    fn four_failures_may_stand_in_a_ready_receiver(rt: HostRuntime) -> Result<(), Fail> {
        let mut signals = straight();
        signals[4].spoilt = 2;
        signals[4].spoils = 4;
        signals[7].start = 4 * P;
        assert_eq!(rt; first::<RateShort>(&signals)?, (5 * P + M, Told::Ready));
        Ok(())
    }

    // Position 7 passes on the tick of the setback. Were that pass kept, it would be locked, with one failure, when the others
    // lock again; so it is not, and locks two periods later.
    #[test]
    fn a_pass_on_the_tick_of_a_setback_is_lost(rt: HostRuntime) -> Result<(), Fail> {
        let mut signals = straight();
        signals[4].spoilt = 2;
        signals[4].spoils = 5;
        signals[7].start = 6 * P;
        signals[7].spoilt = 2;
        signals[7].spoils = 1;
        let mut receiver = Hunting::<RateShort, WatchEngine>::new(WatchEngine::new());
        let (tick, told) = hunt(&mut receiver, &signals, 0)?;
        assert_eq!(rt; tick, 6 * P + M);
        assert_eq!(rt; setback(told), (1, 1, 4, 6 * P + M));
        assert_eq!(rt;
            hunt(&mut receiver, &signals, 6 * P + M)?,
            (10 * P + M, Told::Ready)
        );
        Ok(())
    }

    // Half of a marker of position 7 is in when the setback comes: windows are kept.
    #[test]
    fn a_window_may_lie_across_a_setback(rt: HostRuntime) -> Result<(), Fail> {
        let mut signals = straight();
        signals[4].spoilt = 2;
        signals[4].spoils = 5;
        signals[7].start = 6 * P + 60;
        let mut receiver = Hunting::<RateShort, WatchEngine>::new(WatchEngine::new());
        assert_eq!(rt; hunt(&mut receiver, &signals, 0)?.0, 6 * P + M);
        assert_eq!(rt; receiver.accepted_ticks(), 6 * P + M);
        assert_eq!(rt;
            hunt(&mut receiver, &signals, 6 * P + M)?,
            (8 * P + M, Told::Ready)
        );
        assert_eq!(rt; receiver.skew(7), Some(60));
        Ok(())
    }

    // All first markers lack their first bit, a zero: nothing passes on tick 119.
    #[test]
    fn no_test_comes_before_120_bits(rt: HostRuntime) -> Result<(), Fail> {
        let mut signals = straight();
        for i in 0..16usize {
            signals[i].cut = 1;
        }
        assert_eq!(rt; first::<RateShort>(&signals)?, (2 * P + M - 1, Told::Ready));
        Ok(())
    }

    #[test]
    fn many_ticks_stop_at_the_first_that_is_refused(rt: HostRuntime) -> Result<(), Fail> {
        let mut receiver = Hunting::<RateShort, WatchEngine>::new(WatchEngine::new());
        let mut words = [0u32; 64];
        assert_eq!(rt; receiver.ticks(&words), Ok(Told::Quiet));
        assert_eq!(rt; receiver.accepted_ticks(), 64);
        words[10] = 0x100;
        assert_eq!(rt; receiver.ticks(&words), Err(Refusal::Bit(8)));
        assert_eq!(rt; receiver.accepted_ticks(), 74);
        Ok(())
    }

    #[test]
    fn refused_ticks_change_nothing(rt: HostRuntime) -> Result<(), Fail> {
        let mut receiver = Hunting::<RateShort, WatchEngine>::new(WatchEngine::new());
        for tick in 1..P + M {
            if tick % 3 == 0 {
                assert_eq!(rt; receiver.tick(0xFFFF_FF00), Err(Refusal::Bit(8)));
                assert_eq!(rt; receiver.tick(0x8000_0000), Err(Refusal::Bit(31)));
            }
            assert_eq!(rt;
                receiver.tick(word_of::<RateShort>(&straight(), tick)),
                Ok(Told::Quiet)
            );
        }
        assert_eq!(rt;
            receiver.tick(word_of::<RateShort>(&straight(), P + M)),
            Ok(Told::Ready)
        );
        assert_eq!(rt; receiver.accepted_ticks(), P + M);
        assert_eq!(rt; receiver.tick(0xFFFF_FF00), Err(Refusal::Ready));
        assert_eq!(rt; receiver.tick(0), Err(Refusal::Ready));
        assert!(rt; receiver.is_ready());
        assert_eq!(rt; Refusal::Bit(31).number(), 2);
        assert_eq!(rt; Refusal::Bit(31).place(), 31);
        assert_eq!(rt; Refusal::Ready.number(), 20);
        assert_eq!(rt; Refusal::Ready.place(), 0);
        let mut afresh = receiver.hunt_afresh();
        assert_eq!(rt; afresh.accepted_ticks(), 0);
        assert_eq!(rt; afresh.lane(0), None);
        assert_eq!(rt; hunt(&mut afresh, &straight(), 0)?, (P + M, Told::Ready));
        Ok(())
    }
}
