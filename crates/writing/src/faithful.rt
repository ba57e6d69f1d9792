// The second writer: lists that mean what the sum says. A function's argument is written apart, by the same loop started afresh, and then appended. It is written into the
// part of the buffer behind the list so far, with places free in front of it for its Ons, and brought down to the part's first byte.
ghost use Rattle.std.specs.Prelude.{◌+◌, ◌*◌, ◌≤◌, T, length, false, ◌≡◌};
ghost use Rattle.std.specs.Float.Ieee.Scale.{finite};
ghost use Rattle.std.proofs.lemmas.List.Edits.{sets};
ghost use Rattle.cells.specs.Contract.Book.{shown};
ghost use Rattle.formats.specs.Bytes.{part};
ghost use Rattle.formats.specs.Tree.{end};
ghost use Rattle.limits.specs.Limits.{sum_entries, sum_levels};
ghost use Rattle.sums.specs.Contract.Lies.{Held, OfOne};
ghost use Rattle.writing.specs.Contract.Room.{argument_front, Separate, AtFront};
ghost use Rattle.writing.specs.Contract.Steps.{TermApart, TurnApart};
ghost use Rattle.writing.specs.Contract.Turns.{apart};
ghost use Rattle.writing.specs.Draft.Contract.Growing.{Ready, Spoken};
ghost use Rattle.writing.specs.Draft.Contract.Lying.{Answered};
ghost use Rattle.writing.specs.Faithful.{write_faithful, faithful};

use crate::draft::Draft;
use cells::{Cells, Entry};
use limits::{RECORD_BYTES, Refusal, SUM_ENTRIES, SUM_LEVELS};

// Places free in front of an argument: two for each of its entries.
const ARGUMENT_FRONT: usize = 2 * SUM_ENTRIES;

// The n bytes from `from` on are moved down to the front.
fn bring_down(b: &mut [u8], from: usize, n: usize)
    requires { from + n ≤ length b.old }
    ensures { b.new ≡ sets b.old 0 (part from n b.old) }
{
    b.copy_within(from..from + n, 0);
}

// The sum of n cells from i on, written into a buffer of its own and brought down to its first byte.
#[cycle(write_apart_write_argument_write_sum_write_term_write_turn)]
fn write_apart(
    book: &Cells,
    i: usize,
    n: usize,
    complex: bool,
    left: usize,
    b: &mut [u8],
) -> Result<Draft, Refusal>
    requires { Held (shown book.now) i (i + n) left × Separate b.old n left }
    ensures { OfOne (shown book.now) i (i + n) left (λ t. AtFront b.old b.new result (10 * n + 2) (write_faithful complex t false end)) }
{
    let e = Draft {
        from: ARGUMENT_FRONT,
        end: ARGUMENT_FRONT,
    };
    let f = write_sum(book, i, n, complex, left, b, e)?;
    let m = f.end - f.from;
    bring_down(b, RECORD_BYTES * f.from, RECORD_BYTES * m);
    Ok(Draft { from: 0, end: m })
}

// The same in the part of the buffer behind the list so far, which it continues then.
#[cycle(write_apart_write_argument_write_sum_write_term_write_turn)]
fn write_argument(
    book: &Cells,
    i: usize,
    n: usize,
    complex: bool,
    left: usize,
    b: &mut [u8],
    d: Draft,
) -> Result<Draft, Refusal>
    requires { Held (shown book.now) i (i + n) left × Ready b.old d 0 (10 * n + 2 + argument_front * (left + 1)) × (n ≤ sum_entries) }
    ensures { OfOne (shown book.now) i (i + n) left (λ t. Spoken b.old b.new d result 0 (10 * n + 2) (λ ns. apart complex t ns)) }
{
    let start = RECORD_BYTES * d.end;
    let f = write_apart(book, i, n, complex, left, &mut b[start..])?;
    Ok(Draft {
        from: d.from,
        end: d.end + f.end,
    })
}

// The term of the entry x, whose inside lies from i on.
#[cycle(write_apart_write_argument_write_sum_write_term_write_turn)]
fn write_term(
    book: &Cells,
    x: Entry,
    i: usize,
    complex: bool,
    left: usize,
    b: &mut [u8],
    d: Draft,
) -> Result<Draft, Refusal>
    requires { Held (shown book.now) i (i + x.inside) left × Ready b.old d (2 * x.inside) (10 * x.inside + 5 + argument_front * (left + 1))
        × T (finite x.num) × (x.inside ≤ sum_entries) }
    ensures { OfOne (shown book.now) i (i + x.inside) left (λ t. TermApart complex x t b.old b.new d result) }
{
    if x.kind == sums::tree::X {
        return crate::write_power(b, d, x.num, complex, x.coef);
    }
    let e = write_argument(book, i, x.inside as usize, complex, left, b, d)?;
    Ok(crate::write_function(b, e, x.kind, x.num, x.coef.is_one()))
}

// One turn: the entry x, whose inside lies from i on.
#[cycle(write_apart_write_argument_write_sum_write_term_write_turn)]
fn write_turn(
    book: &Cells,
    x: Entry,
    i: usize,
    complex: bool,
    identity: bool,
    left: usize,
    b: &mut [u8],
    d: Draft,
) -> Result<Draft, Refusal>
    requires { Held (shown book.now) i (i + x.inside) left × Ready b.old d (2 * x.inside + 2) (10 * x.inside + 9 + argument_front * (left + 1))
        × T (finite x.num) × (x.inside ≤ sum_entries) }
    ensures { OfOne (shown book.now) i (i + x.inside) left (λ t. TurnApart complex identity x t b.old b.new d result) }
{
    if x.coef.is_zero() {
        return Ok(d);
    }
    let first = !identity & (d.from == d.end);
    let e = crate::before(b, d, first);
    let f = write_term(book, x, i, complex, left, b, e)?;
    crate::finish(b, f, x, complex, first)
}

// The sum of m cells from j on, after what was written. `identity` says that x was met and nothing written for it.
#[cycle(write_apart_write_argument_write_sum_write_term_write_turn)]
fn write_sum(
    book: &Cells,
    j: usize,
    m: usize,
    complex: bool,
    left: usize,
    b: &mut [u8],
    d: Draft,
) -> Result<Draft, Refusal>
    requires { Held (shown book.now) j (j + m) left × Ready b.old d (2 * m) (10 * m + 2 + argument_front * left) × (m ≤ sum_entries) }
    ensures { OfOne (shown book.now) j (j + m) left (λ s. Spoken b.old b.new d result (2 * m) (10 * m + 2) (λ ns. write_faithful complex s false ns)) }
{
    let mut q = j;
    let mut identity = false;
    let mut draft = d;
    while q < j + m {
        let x = book.load(q);
        draft = write_turn(book, x, q + 1, complex, identity, left - 1, b, draft)?;
        identity = identity | crate::meets_x(x);
        q = q + 1 + x.inside as usize;
    }
    Ok(crate::close(b, draft, identity))
}

// ---- the entry

// An entry of a sum takes at most two places in front of what was written and ten behind it, a sum that nothing is written for two; and at each level an argument that is being
// written has its own places in front.
const FRONT: usize = 2 * SUM_ENTRIES;

const DRAFT_RECORDS: usize = FRONT + 10 * SUM_ENTRIES + 2 + SUM_LEVELS * ARGUMENT_FRONT;

// A sum with functions in it.
fn write_functions(
    book: &Cells,
    j: usize,
    m: usize,
    complex: bool,
    out: &mut [u8],
) -> Result<usize, Refusal>
    requires { Held (shown book.now) j (j + m) sum_levels × (m ≤ sum_entries) }
    ensures { OfOne (shown book.now) j (j + m) sum_levels (λ s. Answered out.old out.new result (faithful complex s)) }
{
    let mut b = [0u8; RECORD_BYTES * DRAFT_RECORDS];
    let d = Draft {
        from: FRONT,
        end: FRONT,
    };
    let s = write_sum(book, j, m, complex, SUM_LEVELS, &mut b, d);
    crate::draft::answer(&b, s, out)
}

// The sum of m cells from j on goes to the front of out as a list that means what the sum says, or is refused as by the first writer. Of powers of x alone both write the same.
pub fn expr_to_node(
    book: &Cells,
    j: usize,
    m: usize,
    complex: bool,
    out: &mut [u8],
) -> Result<usize, Refusal>
    requires { Held (shown book.now) j (j + m) sum_levels × (m ≤ sum_entries) }
    ensures { OfOne (shown book.now) j (j + m) sum_levels (λ s. Answered out.old out.new result (faithful complex s)) }
{
    if sums::order::powers_end(book.kinds, j, m) == j + m {
        return crate::expr_to_node(book, j, m, complex, out);
    }
    write_functions(book, j, m, complex, out)
}
