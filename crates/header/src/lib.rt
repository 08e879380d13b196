// Line 1 of a sheet: what it says, and the place behind it.
#![tactic(auto)]

ghost use Rattle.header.specs.Opened.{Tens, Named, OpenedAs};

use cursor::Cursor;
use job::{Header, Kind};
use lines::Numbers;

// The header of a kind and three numbers.
fn make_header(kind: Kind, w: [i64; 3]) -> Header
    requires { Tens w }
    ensures { Named kind w result }
{
    Header {
        kind,
        r: w[0] as u64,
        n: w[1] as u64,
        p: w[2] as u64,
    }
}

// Line 1 of a sheet of one kind, whose first fields are `lead`.
pub fn open_as(s: &[u8], kind: Kind, lead: &[u8]) -> Option<(Header, Cursor)>
    ensures { OpenedAs kind lead.now s.now result }
{
    let c = Cursor {
        byte: 0,
        line: 0,
        field: 0,
    };
    let n = Numbers {
        count: 3,
        low: 0,
        high: 9999999999,
    };
    let mut w = [0i64; 3];
    let d = lines::read_line(s, c, lead, n, &mut w, 0).ok()?;
    Some((make_header(kind, w), d))
}
