// What a primitive takes and leaves in reading, and whether it counts as handled: a table of 256 places, one for each code.
ghost use Rattle.std.specs.Prelude.{◌≡◌};
ghost use Rattle.formats.specs.Names.{primitive_of};
ghost use Rattle.formats.specs.Table.{row, packed};

use crate::record::Primitive;

// For each code of a primitive: the operands it takes, 4 times the results it leaves, and 16 where it counts as handled.
const TABLE: [u8; 256] = [
    0, 5, 1, 9, 10, 21, 21, 21, 22, 22, 22, 22, 22, 21, 21, 21, 21, 6, 0, 0, 0, 0, 0, 0, 0, 0, 0,
    0, 0, 0, 0, 0, 21, 21, 22, 21, 21, 21, 14, 0, 0, 0, 0, 0, 0, 0, 0, 0, 0, 0, 0, 0, 0, 0, 0, 0,
    0, 0, 0, 0, 0, 0, 0, 0, 0, 0, 0, 0, 0, 0, 0, 0, 0, 0, 0, 0, 0, 0, 0, 0, 0, 0, 0, 0, 0, 0, 0, 0,
    0, 0, 0, 0, 0, 0, 0, 0, 0, 0, 0, 0, 0, 0, 0, 0, 0, 0, 0, 0, 0, 0, 0, 0, 0, 0, 0, 0, 0, 0, 0, 0,
    0, 0, 0, 0, 0, 0, 0, 0, 0, 0, 0, 0, 0, 0, 0, 0, 0, 0, 0, 0, 0, 0, 0, 0, 0, 0, 0, 0, 0, 0, 0, 0,
    0, 0, 0, 0, 0, 0, 0, 0, 0, 0, 0, 0, 0, 0, 0, 0, 0, 0, 0, 0, 0, 0, 0, 0, 0, 0, 0, 0, 0, 0, 0, 0,
    0, 0, 0, 0, 0, 0, 0, 0, 0, 0, 0, 0, 0, 0, 0, 0, 0, 0, 0, 0, 0, 0, 0, 0, 0, 0, 0, 0, 0, 0, 0, 0,
    0, 0, 0, 0, 0, 0, 0, 0, 0, 0, 0, 0, 0, 0, 0, 0, 0, 0, 0, 0, 0, 0, 0, 0, 0, 0, 0, 0, 0, 0, 0, 0,
    0, 0, 0, 0, 0, 0, 0, 0,
];

fn table_at(code: u8) -> u8
    ensures { result ≡ packed (row (primitive_of code)) }
{
    TABLE[code as usize]
}

// Rows as the table has them: the operands taken, four times the results left, and 16 where it counts as handled.
const ONE_TO_NONE: u8 = 1;

const ONE_TO_TWO: u8 = 1 + 4 * 2;

const TWO_TO_TWO: u8 = 2 + 4 * 2;

const TWO_TO_THREE: u8 = 2 + 4 * 3;

const HANDLED_ONE: u8 = 1 + 4 + 16;

const HANDLED_TWO: u8 = 2 + 4 + 16;

// What the table has at a code. The primitives that formulas are made of have it here too: wherever the table is asked it is laid out anew, which takes longer than most steps.
fn row_of(code: u8) -> u8
    ensures { result ≡ packed (row (primitive_of code)) }
{
    match crate::record::primitive_of(code) {
        Primitive::Pop => ONE_TO_NONE,
        Primitive::Dup => ONE_TO_TWO,
        Primitive::Flip => TWO_TO_TWO,
        Primitive::Over => TWO_TO_THREE,
        Primitive::Neg => HANDLED_ONE,
        Primitive::Sqrt => HANDLED_ONE,
        Primitive::Add => HANDLED_TWO,
        Primitive::Sub => HANDLED_TWO,
        Primitive::Mul => HANDLED_TWO,
        Primitive::Pow => HANDLED_TWO,
        _ => table_at(code),
    }
}

// How many operands the primitive takes, in reading.
pub fn taken(code: u8) -> usize
    ensures { result ≡ (row (primitive_of code)).taken }
{
    row_of(code) as usize % 4
}

// How many results it leaves.
pub fn left(code: u8) -> usize
    ensures { result ≡ (row (primitive_of code)).left }
{
    row_of(code) as usize / 4 % 4
}

// Whether it counts as handled.
pub fn handled(code: u8) -> bool
    ensures { result ≡ (row (primitive_of code)).handled }
{
    row_of(code) / 16 == 1
}
