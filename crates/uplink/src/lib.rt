// The thirteen entries as C functions: each returns the number, and writes place and counts into `answer`. A slice is passed as a pointer and a length.
#![tactic(auto)]

ghost use Rattle.uplink.specs.Told.{Told, Valued, Ran, with_pairs, with_count, with_cost};
ghost use Rattle.std.specs.Prelude.{eqb, not, []};
ghost use Rattle.algebra.specs.Replies as entry;

// From a list to the sum that it stands for; `answer` is place, count, complex flag and pairs.
#[unsafe(no_mangle)]
pub extern "C" fn uplink_read(list: &[u8], sum: &mut [u8], answer: &mut [u64; 4]) -> u64
    ensures { Told entry.read with_pairs list.now sum.old sum.new result answer.new }
{
    let n = algebra::read_numbers(algebra::read(list, sum));
    *answer = [n.place as u64, n.count as u64, n.flag as u64, n.pairs];
    n.number
}

// The derivative of a sum; `answer` is place and count.
#[unsafe(no_mangle)]
pub extern "C" fn uplink_derive(sum: &[u8], out: &mut [u8], answer: &mut [u64; 2]) -> u64
    ensures { Told entry.derive with_count sum.now out.old out.new result answer.new }
{
    let n = algebra::answer::answer_numbers(algebra::derive(sum, out));
    *answer = [n.place as u64, n.count as u64];
    n.number
}

// The integral of a sum; `answer` is place and count.
#[unsafe(no_mangle)]
pub extern "C" fn uplink_integrate(sum: &[u8], out: &mut [u8], answer: &mut [u64; 2]) -> u64
    ensures { Told entry.integrate with_count sum.now out.old out.new result answer.new }
{
    let n = algebra::answer::answer_numbers(algebra::integrate(sum, out));
    *answer = [n.place as u64, n.count as u64];
    n.number
}

// A sum as a list; `complex` is false where it is 0, and true for any other number.
#[unsafe(no_mangle)]
pub extern "C" fn uplink_write(
    sum: &[u8],
    complex: u8,
    out: &mut [u8],
    answer: &mut [u64; 2],
) -> u64
    ensures { Told (entry.write (not (eqb complex 0))) with_count sum.now out.old out.new result answer.new }
{
    let n = algebra::answer::answer_numbers(algebra::write(sum, complex != 0, out));
    *answer = [n.place as u64, n.count as u64];
    n.number
}

// From a list to the list of its derivative; `answer` is place and count.
#[unsafe(no_mangle)]
pub extern "C" fn uplink_derivative(list: &[u8], out: &mut [u8], answer: &mut [u64; 2]) -> u64
    ensures { Told entry.derivative with_count list.now out.old out.new result answer.new }
{
    let n = algebra::answer::answer_numbers(algebra::derivative(list, out));
    *answer = [n.place as u64, n.count as u64];
    n.number
}

// From a list to the list of its integral; `answer` is place and count.
#[unsafe(no_mangle)]
pub extern "C" fn uplink_integral(list: &[u8], out: &mut [u8], answer: &mut [u64; 2]) -> u64
    ensures { Told entry.integral with_count list.now out.old out.new result answer.new }
{
    let n = algebra::answer::answer_numbers(algebra::integral(list, out));
    *answer = [n.place as u64, n.count as u64];
    n.number
}

// From a list to the list that undoes it; `answer` is place and count.
#[unsafe(no_mangle)]
pub extern "C" fn uplink_inverse(list: &[u8], out: &mut [u8], answer: &mut [u64; 2]) -> u64
    ensures { Told entry.inverse with_count list.now out.old out.new result answer.new }
{
    let n = algebra::answer::answer_numbers(algebra::inverse(list, out));
    *answer = [n.place as u64, n.count as u64];
    n.number
}

// The value of a list at x; `answer` is place, steps and peak.
#[unsafe(no_mangle)]
pub extern "C" fn uplink_run(list: &[u8], x: f64, value: &mut f64, answer: &mut [u64; 3]) -> u64
    ensures { Ran x list.now result value.new answer.new }
{
    let n = running::run_numbers(algebra::run(list, x));
    *answer = [n.place as u64, n.steps as u64, n.peak as u64];
    *value = n.value;
    n.number
}

// The value of a sum at x, without a list; `answer` is place and count, both 0.
#[unsafe(no_mangle)]
pub extern "C" fn uplink_value(sum: &[u8], x: f64, value: &mut f64, answer: &mut [u64; 2]) -> u64
    ensures { Valued (entry.value x) with_count sum.now result value.new answer.new }
{
    let n = values::value_numbers(algebra::value(sum, x));
    *answer = [n.place as u64, n.count as u64];
    *value = n.value;
    n.number
}

// How many records a reading of the list runs, known before it is read; `answer` is place and steps.
#[unsafe(no_mangle)]
pub extern "C" fn uplink_cost(list: &[u8], answer: &mut [u64; 2]) -> u64
    ensures { Told entry.cost with_cost list.now [] [] result answer.new }
{
    let n = reading::cost::cost_numbers(algebra::cost(list));
    *answer = [n.place, n.steps];
    n.number
}

// ---- with the second writer, whose lists mean what the sum says

// A sum as a list that means what the sum says; `complex` is false where it is 0, and true for any other number.
#[unsafe(no_mangle)]
pub extern "C" fn uplink_write_faithful(
    sum: &[u8],
    complex: u8,
    out: &mut [u8],
    answer: &mut [u64; 2],
) -> u64
    ensures { Told (entry.write_faithful (not (eqb complex 0))) with_count sum.now out.old out.new result answer.new }
{
    let n = algebra::answer::answer_numbers(algebra::write_faithful(sum, complex != 0, out));
    *answer = [n.place as u64, n.count as u64];
    n.number
}

// From a list to a list that means what its derivative says; `answer` is place and count.
#[unsafe(no_mangle)]
pub extern "C" fn uplink_derivative_faithful(
    list: &[u8],
    out: &mut [u8],
    answer: &mut [u64; 2],
) -> u64
    ensures { Told entry.derivative_faithful with_count list.now out.old out.new result answer.new }
{
    let n = algebra::answer::answer_numbers(algebra::derivative_faithful(list, out));
    *answer = [n.place as u64, n.count as u64];
    n.number
}

// From a list to a list that means what its integral says; `answer` is place and count.
#[unsafe(no_mangle)]
pub extern "C" fn uplink_integral_faithful(
    list: &[u8],
    out: &mut [u8],
    answer: &mut [u64; 2],
) -> u64
    ensures { Told entry.integral_faithful with_count list.now out.old out.new result answer.new }
{
    let n = algebra::answer::answer_numbers(algebra::integral_faithful(list, out));
    *answer = [n.place as u64, n.count as u64];
    n.number
}
