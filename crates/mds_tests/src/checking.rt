//! The check of a file, with each call of a reader or of a writer failing in turn.

use crate::failing::Failing;
use mds_check::{CheckFault, check};
use mds_lines::Counted;
use mds_records::FileKind;
use std::alloc::Global;
use std::io::{Read, Write};
use std::test::Fail;

/// A file of two days, the first of them with runs.
const TWO_DAYS: &[u8] = b"100,NEM12,202401030000,MDP1,RETAILER\n\
    200,NEM1201009,E1,1,E1,N1,01009,kWh,30,\n\
    300,20240101,1.5,1.5,1.5,1.5,1.5,1.5,1.5,1.5,1.5,1.5,1.5,1.5,1.5,1.5,1.5,1.5,1.5,1.5,1.5,1.5,1.5,1.5,1.5,1.5,\
    1.5,1.5,1.5,1.5,1.5,1.5,1.5,1.5,1.5,1.5,1.5,1.5,1.5,1.5,1.5,1.5,1.5,1.5,1.5,1.5,1.5,1.5,1.5,1.5,V\n\
    400,1,20,F14,,late\n\
    400,21,48,A\n\
    300,20240102,-1,-1,-1,-1,-1,-1,-1,-1,-1,-1,-1,-1,-1,-1,-1,-1,-1,-1,-1,-1,-1,-1,-1,-1,\
    -1,-1,-1,-1,-1,-1,-1,-1,-1,-1,-1,-1,-1,-1,-1,-1,-1,-1,-1,-1,-1,-1,-1,-1,A,,,20240102010203,\n\
    900\n";

/// What is printed of it.
const TWO_LINES: &[u8] = b"NEM1201009 E1 20240101 48 72 kWh\nNEM1201009 E1 20240102 48 -48 kWh\n";

/// The result of `check`, and how many calls of its reader and of its writer failed.
fn checked<R: Read + Drop, W: Write + Drop>(
    alloc: Global,
    reader: R,
    writer: W,
) -> (Result<(), CheckFault>, u64, u64) {
    let mut reader = Counted::new(reader);
    let mut writer = Counted::new(writer);
    let answer = check(alloc, FileKind::Nem12, &mut reader, &mut writer);
    (answer, reader.failures(), writer.failures())
}

/// Each call of the reader fails in turn. Each call that is made was needed.
#[test]
fn readers_fail(rt: HostRuntime) -> Result<(), Fail> {
    for calls in 0..TWO_DAYS.len() + 2 {
        let mut out = Vec::new(rt.alloc());
        let reader = Failing {
            inner: TWO_DAYS,
            step: 1,
            calls,
        };
        let answer = checked(rt.alloc(), reader, &mut out);
        let (wanted, lines) = if calls <= TWO_DAYS.len() {
            ((Err(CheckFault::Read), 1, 0), b"".as_slice())
        } else {
            ((Ok(()), 0, 0), TWO_LINES)
        };
        assert_eq!(rt; answer, wanted, "after {calls} calls");
        assert_eq!(rt; out.as_slice(), lines);
    }
    Ok(())
}

/// Each call of the writer fails in turn. Each call that is made was needed.
#[test]
fn writers_fail(rt: HostRuntime) -> Result<(), Fail> {
    for calls in 0..TWO_LINES.len() + 1 {
        let mut out = Vec::new(rt.alloc());
        let writer = Failing {
            inner: &mut out,
            step: 1,
            calls,
        };
        let answer = checked(rt.alloc(), TWO_DAYS, writer);
        let wanted = if calls < TWO_LINES.len() {
            (Err(CheckFault::Write), 0, 1)
        } else {
            (Ok(()), 0, 0)
        };
        assert_eq!(rt; answer, wanted, "after {calls} calls");
        assert_eq!(rt; out.as_slice(), &TWO_LINES[..calls]);
    }
    Ok(())
}
