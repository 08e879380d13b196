// A place in a text, lent to the one function that moves it.
#![tactic(auto)]

ghost use Rattle.std.specs.Prelude.{◌≡◌, ◌+◌, ◌<◌, ◌^◌};
ghost use Rattle.cursor.specs.Moves.{field_past, line_past, place_past};

// A place in the text: bytes passed, lines passed, and tabs passed in the line.
#[derive(Clone, Copy)]
pub struct Cursor {
    pub byte: usize,
    pub line: usize,
    pub field: usize,
}

// The cursor passes so many line ends, and stands at the byte `end`, behind so many tabs of its line.
fn pass(c: &mut Cursor, end: usize, lines: usize, tabs: usize)
    requires { c.old.line + lines < 2 ^ 64 }
    ensures { c.new ≡ place_past c.old end lines tabs }
{
    c.byte = end;
    c.line += lines;
    c.field = tabs;
}

// The place to which the cursor passes.
fn behind(c: Cursor, end: usize, lines: usize, tabs: usize) -> Cursor
    requires { c.line + lines < 2 ^ 64 }
    ensures { result ≡ place_past c end lines tabs }
{
    let mut d = c;
    pass(&mut d, end, lines, tabs);
    d
}

// The place behind a field that ends at the byte `end`, with the tab before it.
pub fn behind_field(c: Cursor, end: usize) -> Cursor
    requires { c.field + 1 < 2 ^ 64 }
    ensures { result ≡ field_past c end }
{
    behind(c, end, 0, c.field + 1)
}

// The place behind a line that ends at the byte `end`.
pub fn behind_line(c: Cursor, end: usize) -> Cursor
    requires { c.line + 1 < 2 ^ 64 }
    ensures { result ≡ line_past c end }
{
    behind(c, end, 1, 0)
}
