// Runs rates, the lock machine and the sender on examples.
#![tactic(auto)]

#[cfg(test)]
mod tests {
    use lanes::{Cause, Event, Fault, Lock, Pad, Rate, found_lane, passes, period};
    use pairs::{LanePlace, STRIP_BYTES, WordPlace};
    use rates::{Rate200, Rate400, RateShort};
    use sender::{Refusal, Sender};
    use std::process::Abort;
    use std::test::Fail;

    // A control block of type 1E and seven zero octets.
    const IDLE: [u8; 9] = [1, 0x1E, 0, 0, 0, 0, 0, 0, 0];

    // Sends a pair of idle blocks, and answers its strip.
    fn send_idle<R: Rate>(sender: &mut Sender<R>) -> Result<[u8; STRIP_BYTES], Fail> {
        let mut strip = [0; STRIP_BYTES];
        let records = [IDLE; 160];
        let blocks = sender.block_count().min(160);
        sender.send(records[..blocks].as_flattened(), &mut strip)?;
        Ok(strip)
    }

    // A window of 120 bits from its octets.
    fn window(octets: &[u8]) -> u128 {
        octets.iter().take(15).rev().fold(
            0,
            |bits, octet| bits % (1 << 112) * 256 + u128::from(*octet),
        )
    }

    // Each lane begins with its marker, and passes for that lane alone.
    fn begins_with_markers<R: Rate>(rt: &impl Abort) -> Result<(), Fail> {
        let strip = send_idle(&mut Sender::<R>::new(1, 1, 0)?)?;
        for (lane, part) in strip.chunks_exact(STRIP_BYTES / R::LANES).enumerate() {
            assert!(rt; part.starts_with(&R::marker(lane)));
            assert_eq!(rt; found_lane::<R>(window(part)), Some(lane));
        }
        Ok(())
    }

    #[test]
    fn each_lane_begins_with_its_marker_at_200(rt: HostRuntime) -> Result<(), Fail> {
        begins_with_markers::<Rate200>(&rt)
    }

    #[test]
    fn each_lane_begins_with_its_marker_at_400(rt: HostRuntime) -> Result<(), Fail> {
        begins_with_markers::<Rate400>(&rt)
    }

    #[test]
    fn every_sixteenth_pair_opens_with_markers(rt: HostRuntime) -> Result<(), Fail> {
        let mut sender = Sender::<RateShort>::new(3, 5, 7)?;
        for pair in 0..40 {
            let opens = pair % 16 == 0;
            assert_eq!(&rt; sender.block_count(), if opens { 144 } else { 160 });
            let strip = send_idle(&mut sender)?;
            assert_eq!(&rt;
                found_lane::<RateShort>(window(&strip)),
                if opens { Some(0) } else { None }
            );
        }
        Ok(())
    }

    #[test]
    fn periods_of_the_rates(rt: HostRuntime) -> Result<(), Fail> {
        assert_eq!(rt; period::<Rate200>(), 2785280);
        assert_eq!(rt; period::<Rate400>(), 2785280);
        assert_eq!(rt; period::<RateShort>(), 21760);
        Ok(())
    }

    #[test]
    fn starts_out_of_range_make_no_sender(rt: HostRuntime) -> Result<(), Fail> {
        for (scramble, pad, status) in [(1 << 58, 1, 0), (0, 0, 0), (0, 512, 0), (0, 1, 8)] {
            let refusal = Sender::<Rate200>::new(scramble, pad, status)
                .err()
                .ok_or("made")?;
            assert_eq!(rt; (refusal.number(), refusal.place()), (5, 0));
        }
        assert!(rt; Sender::<Rate200>::new((1 << 58) - 1, 511, 7).is_ok());
        Ok(())
    }

    #[test]
    fn a_refused_send_changes_nothing(rt: HostRuntime) -> Result<(), Fail> {
        let mut sender = Sender::<Rate400>::new(1, 2, 3)?;
        let mut records = [IDLE; 129];
        let mut strip = [0xA5; STRIP_BYTES];
        records[7][0] = 4;
        let send = |sender: &mut Sender<Rate400>, blocks: usize, strip: &mut [u8]| {
            sender.send(records[..blocks.min(129)].as_flattened(), strip)
        };
        let short = send(&mut sender, 129, &mut strip[..STRIP_BYTES - 1]);
        assert_eq!(rt; short, Err(Refusal::Buffer));
        let long = send(&mut sender, 129, &mut strip);
        assert_eq!(rt; long, Err(Refusal::Blocks(blocks::Refusal::Length)));
        let kind = send(&mut sender, 128, &mut strip);
        assert_eq!(rt; kind, Err(Refusal::Blocks(blocks::Refusal::Kind(7))));
        assert!(rt; strip == [0xA5; STRIP_BYTES]);
        let after = send_idle(&mut sender)?;
        let alone = send_idle(&mut Sender::<Rate400>::new(1, 2, 3)?)?;
        assert!(rt; after == alone);
        Ok(())
    }

    #[test]
    fn bytes_behind_a_strip_stay(rt: HostRuntime) -> Result<(), Fail> {
        let mut strip = [0xA5; STRIP_BYTES + 3];
        let records = [IDLE; 144];
        let mut sender = Sender::<Rate200>::new(0, 1, 0)?;
        assert_eq!(rt;
            sender.send(records.as_flattened(), &mut strip),
            Ok(STRIP_BYTES)
        );
        assert!(rt; strip.ends_with(&[0xA5; 3]));
        Ok(())
    }

    #[test]
    fn places_in_the_words_and_on_the_lanes(rt: HostRuntime) -> Result<(), Fail> {
        let word = |word, index| WordPlace { word, index };
        let lane = |lane, row| LanePlace { lane, row };
        // A stands on the even lanes in even rows, and on the odd ones in odd rows.
        assert_eq!(rt; word(0, 0).on_lane::<Rate200>(), Some(lane(0, 0)));
        assert_eq!(rt; word(1, 3).on_lane::<Rate200>(), Some(lane(7, 0)));
        assert_eq!(rt; word(0, 4).on_lane::<Rate200>(), Some(lane(1, 1)));
        assert_eq!(rt; word(1, 543).on_lane::<Rate400>(), Some(lane(14, 67)));
        assert_eq!(rt; word(2, 0).on_lane::<Rate200>(), None);
        assert_eq!(rt; word(1, 544).on_lane::<Rate200>(), None);
        assert_eq!(rt; lane(0, 1).in_word::<Rate200>(), Some(word(1, 4)));
        assert_eq!(rt; lane(15, 67).in_word::<Rate400>(), Some(word(0, 543)));
        assert_eq!(rt; lane(8, 0).in_word::<Rate200>(), None);
        assert_eq!(rt; lane(7, 136).in_word::<Rate200>(), None);
        Ok(())
    }

    #[test]
    fn three_wrong_nibbles_pass_and_four_do_not(rt: HostRuntime) -> Result<(), Fail> {
        let marker = window(&Rate200::marker(3));
        // One bit in each of three nibbles of the shared octets and of the own ones.
        let three = marker ^ 0x111 ^ (0x111 << 64);
        assert!(rt; passes::<Rate200>(three, 3));
        assert!(rt; !passes::<Rate200>(three ^ 0x1000, 3));
        assert!(rt; !passes::<Rate200>(three ^ (0x1000 << 64), 3));
        // Octets 3, 7 and 11 are not looked at.
        let unseen = (0xFF << 24) | (0xFF << 56) | (0xFF << 88);
        assert!(rt; passes::<Rate200>(three ^ unseen, 3));
        assert!(rt; !passes::<Rate200>(marker, 8));
        Ok(())
    }

    #[test]
    fn a_position_waits_locks_and_is_lost(rt: HostRuntime) -> Result<(), Fail> {
        let marker = window(&RateShort::marker(5));
        let mut lock = Lock::Searching;
        assert_eq!(rt; lock.step::<RateShort>(None), Event::Quiet);
        assert_eq!(rt; lock.step::<RateShort>(Some(marker)), Event::Waits);
        for _ in 1..21760 {
            assert_eq!(rt; lock.step::<RateShort>(Some(marker)), Event::Quiet);
        }
        assert_eq!(rt; lock.step::<RateShort>(Some(marker)), Event::Locks);
        for failure in 1..=5 {
            for _ in 1..21760 {
                assert_eq!(rt; lock.step::<RateShort>(Some(0)), Event::Quiet);
            }
            let event = if failure < 5 {
                Event::Fails
            } else {
                Event::FifthFailure
            };
            assert_eq!(rt; lock.step::<RateShort>(Some(0)), event);
        }
        assert_eq!(rt; lock, Lock::Searching);
        let fault = Fault {
            cause: Cause::FiveFailedMarkers,
            position: 2,
            ticks: 130680,
        };
        assert_eq!(rt; Event::FifthFailure.or_fault(2, 130680), Err(fault));
        assert_eq!(rt; (fault.cause.layer(), fault.cause.number()), (1, 1));
        Ok(())
    }

    #[test]
    fn a_wrong_lane_ends_the_wait(rt: HostRuntime) -> Result<(), Fail> {
        let mut lock = Lock::Waiting { lane: 5, left: 1 };
        let other = window(&RateShort::marker(4));
        assert_eq!(rt; lock.step::<RateShort>(Some(other)), Event::Fails);
        assert_eq!(rt; lock, Lock::Searching);
        Ok(())
    }

    #[test]
    fn pad_bits_of_nine_ones(rt: HostRuntime) -> Result<(), Fail> {
        let mut pad = Pad::new(0x1FF)?;
        for bit in [0, 0, 0, 0, 0, 1, 1, 1, 1, 0] {
            assert_eq!(rt; pad.next(), bit);
        }
        Ok(())
    }
}
