//! Rows: what a text is read as, a `:`, the text, a `=`, and the expected result.

use crate::terms::tell_term;
use mds_terms::Reading;
use std::alloc::Global;
use std::mem::size_of;

/// Rows of quantities and units, of days, moments and lengths, and of names.
const TERMS: &str = "quantity:007.250000000=7.25
quantity:.5=0.5
quantity:5.=5
quantity:-0=0
quantity:-0.000001=-0.000001
quantity:10.010=10.01
quantity:999999999999.999999=999999999999.999999
quantity:-999999999999.999999=-999999999999.999999
quantity:=Form
quantity:.=Form
quantity:-.=Form
quantity:+1=Form
quantity:1e3=Form
quantity:1.2.3=Form
quantity:1000000000000.0000001x=Form
quantity:0.0000001=Decimals
quantity:1000000000000.0000001=Decimals
quantity:1000000000000=Range
quantity:-1000000000000.000000=Range
quantity:99999999999999999999999999999999=Range
sum:287999999999999999712=287999999999999.999712
sum:-287999999999999999712=-287999999999999.999712
sum:288000000000000000000=288000000000000
sum:0=0
sum:-1=-0.000001
unit:KWH=kWh
unit:kWhx=none
day:20240229=20240229
day:20230229=none
moment:20240102010203=20240102010203
moment:202401020102=none
header moment:202401020102=20240102010200
length:05=5
length:030=none
NMI:NEM1201009=NEM1201009
NMI:nEM1201009=none
suffix:E1=E1
suffix:e1=none
stream:NEM1201009|E1=NEM1201009,E1
stream:NEM1201009|=none
quality:F00=F00
quality:A14=none";

/// Rows of reasons, marks and readings.
const MARKS: &str = "reason:|076|x=76,x
reason:|1000|=none
lent reason:|076|é=76,é
lent reason:||a b=,a b
lent reason:||a,b=none
mark:F14|76|é=F14,76,é
lent mark:F14|76|é|-0.25=F14,76,é,-0.25
lent mark:N|079|lost|=N,79,lost,
lent mark:N|||1=none
lent mark:A|||=none
lent mark:V|||1=none
reading:A|||1.50=A,,,1.5
reading:S52|||1=S52,,,1
reading:N|079|lost|=N,79,lost,
reading:F14|76|é|-0.25=F14,76,é,-0.25
reading:N|||1=none
reading:A|||=none
reading:V|||=none
reading:V|||1=none
reading:A|||x=none";

/// Rows of printable texts, details, events and records.
const PARTS: &str = "printable: 01009~= 01009~,printable
printable:1,2=none
lent printable: 01009~= 01009~
lent printable:1,2=none
lent printable:é=none
details:E1|10|N1|01009|20240202=E1,10,N1,01009,20240202
details:E1,E2|1|N1|01009|=none
lent details:|1|N1|01009|=,1,N1,01009,
lent details:E1,E2|1|N1|01009|=none
lent details:E1|1|N1|01009|20240230=none
event:NEM1201009|E1|20240102|O||20240102000000|15.5=NEM1201009,E1,20240102,O,,20240102000000,15.5
event:NEM1201009|E1|20240102|O|1,2||15.5=none
lent event:NEM1201009|E1|20240102||S1||=NEM1201009,E1,20240102,,S1,,
lent event:NEM1201009|E1|20240102|OO|||15.5=none
lent event:NEM1201009|E1|20240102|O|1,2||15.5=none
record:100,NEM12,202401030405,ACME,,,=good
record:100,NEM13=WrongFile
record:200,NEM1201009,E1Q1,1,E1,N1,01009,KWH,05,20240229=good
record:200,NEM1201009,E1,1,E1,N1,01009,kWh,10,=Bad(9)
record:300,20240101,1,1,1,1,1,1,1,1,1,1,1,1,1,1,1,1,1,1,1,1,1,1,1,1,1,1,1,1,1,1,1,1,1,1,1,1,1,1,1,1,1,1,1,1,1,1,1,1,A=good
record:300,20240101,1,1,1,1,1,1,1,1,1,1,1,1,1,1,1,1,1,1,1,1,1,1,1,1,1,1,1,1,1,1,1,1,1,1,1,1,1,1,1,1,1,1,1,1,1,1,1,1=Count
record:400,1,0020,F14,076,meter changed=good
record:400,1,48,V=Bad(4)
record:500,O,S 1,20240102030405,15.5=good
record:500,o,,,,x=Count
record:250,1234567890,,,11,,,I,,20031001103230,,007,,,20040201100030,F05,,read late,-00.50,KWH=good
record:550,N,,A,=good
record:550,n=Bad(2)
record:900=good
record:900,,x=Count";

/// Rows of runs. They are put one by one into a day of 48 intervals, and after each comes the
/// result.
const COVERS: &str =
    "cover:10-20 20-48 10-20 1-9 20-20 21-47 47-48 48-48 48-48=taken 10-20;Order 10-20;Order 10-20;Order 10-20;Order 10-20;taken 10-20 21-47;Order 10-20 21-47;taken 10-20 21-47 48-48;Order 10-20 21-47 48-48;
cover:0-5 9-8 49-49 48-49 10-20 12-49 0-0 15-14 20-65535 21-48=Range;Range;Range;Range;taken 10-20;Range 10-20;Range 10-20;Range 10-20;Range 10-20;taken 10-20 21-48;";

/// A text up to the first of these characters, and what follows that.
pub fn cut(text: &str, at: char) -> (&str, &str) {
    text.split_once(at).unwrap_or((text, ""))
}

/// Whether a row holds.
fn holds(alloc: Global, row: &str) -> bool {
    let (text, wanted) = cut(row, '=');
    let (word, text) = cut(text, ':');
    let mut out = String::new(alloc);
    match tell_term(alloc, word, text, &mut out) {
        Some(()) => out.as_str() == wanted,
        None => wanted == "none",
    }
}

#[test]
fn rows_hold(rt: HostRuntime) {
    for rows in [TERMS, MARKS, PARTS, COVERS] {
        for row in rows.split('\n') {
            assert!(rt; holds(rt.alloc(), row), "{row}");
        }
    }
    assert_eq!(rt; size_of::<Reading>(), 32);
}
