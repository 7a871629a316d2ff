// Runs the commands over readers that give a byte at a time or fail in mid-stream, and writers that take one or fail.
#![tactic(auto)]

#[cfg(test)]
mod tests {
    use commands::{StripError, print_groups, print_records, print_text, send_strips};
    use rates::Rate200;
    use sender::Sender;
    use std::alloc::Global;
    use std::io;
    use std::io::{Error, ErrorKind, Read, Write};
    use std::test::Fail;

    // Gives a byte at a time. Behind the last it fails, or ends.
    #[derive(Drop)]
    struct Slow<'a> {
        bytes: &'a [u8],
        fails: bool,
    }

    impl Read for Slow<'_> {
        fn read(&mut self, buf: &mut [u8]) -> io::Result<usize> {
            let Some(place) = buf.first_mut() else {
                return Ok(0);
            };
            match self.bytes.split_first() {
                Some((byte, rest)) => {
                    *place = *byte;
                    self.bytes = rest;
                    Ok(1)
                }
                None if self.fails => Err(Error::from(ErrorKind::BrokenPipe)),
                None => Ok(0),
            }
        }
    }

    // Takes a byte at a time, and fails where its room is used up.
    #[derive(Drop)]
    struct Narrow {
        bytes: Vec<u8>,
        room: usize,
    }

    impl Write for Narrow {
        fn write(&mut self, buf: &[u8]) -> io::Result<usize> {
            if self.room == 0 {
                return Err(Error::from(ErrorKind::StorageFull));
            }
            match buf.first() {
                Some(byte) => {
                    self.bytes.push(*byte)?;
                    self.room -= 1;
                    Ok(1)
                }
                None => Ok(0),
            }
        }

        fn flush(&mut self) -> io::Result<()> {
            Ok(())
        }
    }

    // Five groups of data blocks, a control block and an unknown kind.
    fn records() -> [u8; 190] {
        let mut records = [2; 190];
        records[180] = 1;
        records[189] = 9;
        records
    }

    const TEXT: &[u8] = b"data 0202020202020202\n# none\n\nnote 020202\nbad11 0202020202020202";

    fn writer(alloc: Global, room: usize) -> Narrow {
        Narrow {
            bytes: Vec::new(alloc),
            room,
        }
    }

    #[test]
    fn groups_come_the_same_a_byte_at_a_time(rt: HostRuntime) -> Result<(), Fail> {
        let records = records();
        let mut at_once = Vec::new(rt.alloc());
        let whole = print_groups(rt.alloc(), &mut records.as_slice(), &mut at_once)?;
        let mut input = Slow {
            bytes: &records,
            fails: false,
        };
        let mut out = writer(rt.alloc(), 1000);
        let slow = print_groups(rt.alloc(), &mut input, &mut out)?;
        assert!(rt; whole == slow);
        assert!(rt; whole.is_some_and(|refusal| refusal.number() == 4 && refusal.place() == 21));
        assert!(rt; out.bytes == at_once);
        assert_eq!(rt; at_once.len(), 4 + 5 * 67 + 5);
        Ok(())
    }

    #[test]
    fn a_read_that_fails_is_no_end_of_the_groups(rt: HostRuntime) -> Result<(), Fail> {
        let records = records();
        for (count, lines) in [(0, 0), (1, 0), (35, 0), (36, 1), (37, 1), (72, 2), (180, 5)] {
            let mut input = Slow {
                bytes: &records[..count],
                fails: true,
            };
            let mut out = writer(rt.alloc(), 1000);
            let printed = print_groups(rt.alloc(), &mut input, &mut out);
            assert!(rt; printed.is_err_and(|e| e.kind() == ErrorKind::BrokenPipe));
            assert_eq!(rt; out.bytes.len(), 4 + lines * 67);
        }
        Ok(())
    }

    #[test]
    fn a_write_that_fails_is_told(rt: HostRuntime) -> Result<(), Fail> {
        let records = records();
        for room in [0, 1, 3, 4, 70, 71, 72, 339, 342, 343] {
            let mut input = Slow {
                bytes: &records,
                fails: false,
            };
            let mut out = writer(rt.alloc(), room);
            let printed = print_groups(rt.alloc(), &mut input, &mut out);
            assert!(rt; printed.is_err_and(|e| e.kind() == ErrorKind::StorageFull));
            assert_eq!(rt; out.bytes.len(), room);
        }
        Ok(())
    }

    #[test]
    fn texts_come_the_same_a_byte_at_a_time(rt: HostRuntime) -> Result<(), Fail> {
        let mut input = Slow {
            bytes: TEXT,
            fails: false,
        };
        let mut made = writer(rt.alloc(), 1000);
        assert!(rt; print_records(rt.alloc(), &mut input, &mut made)?.is_none());
        assert_eq!(rt; made.bytes.len(), 22);
        let mut input = Slow {
            bytes: &made.bytes,
            fails: false,
        };
        let mut out = writer(rt.alloc(), 1000);
        assert!(rt; print_text(rt.alloc(), &mut input, &mut out)?.is_none());
        let lines = b"data 0202020202020202\nnote 020202\nbad11 0202020202020202\n";
        assert!(rt; out.bytes.as_slice() == lines.as_slice());
        Ok(())
    }

    #[test]
    fn a_text_that_cannot_be_read_or_written_is_told(rt: HostRuntime) -> Result<(), Fail> {
        let records = records();
        for count in [0, 1, 22, 60] {
            let mut input = Slow {
                bytes: &TEXT[..count],
                fails: true,
            };
            let mut out = writer(rt.alloc(), 1000);
            assert!(rt; print_records(rt.alloc(), &mut input, &mut out).is_err());
            assert!(rt; out.bytes.is_empty());
        }
        let mut input = Slow {
            bytes: TEXT,
            fails: false,
        };
        let mut out = writer(rt.alloc(), 21);
        assert!(rt; print_records(rt.alloc(), &mut input, &mut out).is_err());
        let mut input = Slow {
            bytes: &records,
            fails: true,
        };
        let mut out = writer(rt.alloc(), 1000);
        assert!(rt; print_text(rt.alloc(), &mut input, &mut out).is_err());
        assert!(rt; out.bytes.is_empty());
        Ok(())
    }

    fn eight_writers(alloc: Global) -> Result<Vec<Narrow>, Fail> {
        let mut lanes = Vec::new(alloc);
        for _ in 0..8u32 {
            lanes.push(writer(alloc, 1000))?;
        }
        Ok(lanes)
    }

    #[test]
    fn pairs_come_a_byte_at_a_time_up_to_a_failed_read(rt: HostRuntime) -> Result<(), Fail> {
        let records = [2; 9 * 464];
        for (count, parts) in [(0, 0), (1, 0), (1296, 1), (1297, 1), (2736, 2), (4176, 3)] {
            let mut sender = Sender::<Rate200>::new(1, 1, 1)?;
            let mut lanes = eight_writers(rt.alloc())?;
            let mut input = Slow {
                bytes: &records[..count],
                fails: true,
            };
            let sent = send_strips(&mut sender, &mut input, lanes.as_mut_slice());
            assert!(rt;
                matches!(sent, Err(StripError::Input(e)) if e.kind() == ErrorKind::BrokenPipe)
            );
            assert!(rt; lanes.iter().all(|lane| lane.bytes.len() == 170 * parts));
        }
        Ok(())
    }
}
