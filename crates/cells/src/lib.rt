// One entry of a sum and its numbers as bits, and the book that sums lie in, three arrays: kinds, inside counts, and number bits, three words a place: the number's,
// re's and im's. Only `load` and `store` say what a cell means (and `find_power` in sums, which reads the number's word alone); the others move cells as they are.
#![tactic(auto)]

ghost use Rattle.std.specs.Prelude.{◌+◌, ◌≤◌, ◌<◌, ◌≡◌};
ghost use Rattle.cells.specs.Contract.Book.{seen, shown, slices, Room, Plain, at};
ghost use Rattle.cells.specs.Contract.Moves.{Apart, Put, Moved, Copied, Inserted};

use numbers::complex::Complex;

// A term (its kind, how many entries lie inside it, its power or base) and its coefficient.
#[derive(Clone, Copy)]
pub struct Entry {
    pub kind: u8,
    pub inside: u8,
    pub num: f64,
    pub coef: Complex,
}

// The three arrays, shared: for reading. Contracts see them as one book too (`shown`).
#[derive(Clone, Copy)]
pub struct Cells<'a> {
    pub kinds: &'a [u8],
    pub insides: &'a [u8],
    pub numbers: &'a [[u64; 3]],
}

impl<'a> Cells<'a> {
    // The entry that the cell at i stands for.
    pub fn load(&self, i: usize) -> Entry
        requires { Room (shown self.now) (i + 1) × Plain (at (shown self.now) i) }
        ensures { result ≡ at (shown self.now) i }
    {
        let words = self.numbers[i];
        let re = f64::from_bits(words[1]);
        let im = f64::from_bits(words[2]);
        Entry {
            kind: self.kinds[i],
            inside: self.insides[i],
            num: f64::from_bits(words[0]),
            coef: Complex { re: re, im: im },
        }
    }
}

// The three arrays, lent. Contracts see them as one book (`seen`).
#[derive(Drop)]
pub struct Book<'a> {
    pub kinds: &'a mut [u8],
    pub insides: &'a mut [u8],
    pub numbers: &'a mut [[u64; 3]],
}

impl<'a> Book<'a> {
    // The cells, for reading.
    pub fn cells(&self) -> Cells<'_>
        ensures { shown result ≡ seen self.now }
    {
        Cells {
            kinds: self.kinds,
            insides: self.insides,
            numbers: self.numbers,
        }
    }

    // The entry that the cell at i stands for.
    pub fn load(&self, i: usize) -> Entry
        requires { Room (seen self.now) (i + 1) × Plain (at (seen self.now) i) }
        ensures { result ≡ at (seen self.now) i }
    {
        self.cells().load(i)
    }

    // Writes x as the cell at k.
    pub fn store(&mut self, k: usize, x: Entry)
        requires { Room (seen self.old) (k + 1) × Plain x }
        ensures put { Put (seen self.old) (seen self.new) k x }
        ensures same_slices { slices self.new ≡ slices self.old }
    {
        let c = x.coef;
        let num = f64::to_bits(x.num);
        let re = f64::to_bits(c.re);
        let im = f64::to_bits(c.im);
        self.kinds[k] = x.kind;
        self.insides[k] = x.inside;
        self.numbers[k] = [num, re, im];
    }

    // The cells from k up to e are moved up by d, the last first.
    pub fn open_gap(&mut self, k: usize, e: usize, d: usize)
        requires { (k ≤ e) × Room (seen self.old) (e + d) }
        ensures moved { Moved (seen self.old) (seen self.new) k e d }
        ensures same_slices { slices self.new ≡ slices self.old }
    {
        let kinds = &mut *self.kinds;
        let insides = &mut *self.insides;
        let numbers = &mut *self.numbers;
        for j in (k..e).rev() {
            kinds[j + d] = kinds[j];
            insides[j + d] = insides[j];
            numbers[j + d] = numbers[j];
        }
    }

    // The n cells from i on of another book are copied to k.
    pub fn copy_in(&mut self, from: &Cells, i: usize, n: usize, k: usize)
        requires { Room (shown from.now) (i + n) × Room (seen self.old) (k + n) }
        ensures copied { Copied (shown from.now) (seen self.old) (seen self.new) i n k }
        ensures same_slices { slices self.new ≡ slices self.old }
    {
        let kinds = &mut *self.kinds;
        let insides = &mut *self.insides;
        let numbers = &mut *self.numbers;
        let from_kinds = from.kinds;
        let from_insides = from.insides;
        let from_numbers = from.numbers;
        for j in 0..n {
            kinds[k + j] = from_kinds[i + j];
            insides[k + j] = from_insides[i + j];
            numbers[k + j] = from_numbers[i + j];
        }
    }

    // The n cells from i on are copied to k, the first first.
    fn copy_down(&mut self, i: usize, n: usize, k: usize)
        requires { (k ≤ i) × Room (seen self.old) (i + n) }
        ensures copied { Copied (seen self.old) (seen self.old) (seen self.new) i n k }
        ensures same_slices { slices self.new ≡ slices self.old }
    {
        let kinds = &mut *self.kinds;
        let insides = &mut *self.insides;
        let numbers = &mut *self.numbers;
        for j in 0..n {
            kinds[k + j] = kinds[i + j];
            insides[k + j] = insides[i + j];
            numbers[k + j] = numbers[i + j];
        }
    }

    // The n cells from i on are copied to k, the last first.
    fn copy_up(&mut self, i: usize, n: usize, k: usize)
        requires { (i < k) × Room (seen self.old) (k + n) }
        ensures copied { Copied (seen self.old) (seen self.old) (seen self.new) i n k }
        ensures same_slices { slices self.new ≡ slices self.old }
    {
        let kinds = &mut *self.kinds;
        let insides = &mut *self.insides;
        let numbers = &mut *self.numbers;
        for top in (0..n).rev() {
            kinds[k + top] = kinds[i + top];
            insides[k + top] = insides[i + top];
            numbers[k + top] = numbers[i + top];
        }
    }

    // The n cells from i on are copied to k.
    pub fn copy_within(&mut self, i: usize, n: usize, k: usize)
        requires { Room (seen self.old) (i + n) × Room (seen self.old) (k + n) }
        ensures copied { Copied (seen self.old) (seen self.old) (seen self.new) i n k }
        ensures same_slices { slices self.new ≡ slices self.old }
    {
        if k <= i {
            self.copy_down(i, n, k);
        } else {
            self.copy_up(i, n, k);
        }
    }

    // Puts x and its inside, which lies from i on in the same book, in at k, before the cells up to e.
    pub fn insert(&mut self, x: Entry, i: usize, k: usize, e: usize)
        requires plain { Plain x × Room (seen self.old) (i + x.inside) × Apart i x.inside k (e + (1 + x.inside)) }
        requires k_le_e { (k ≤ e) × Room (seen self.old) (e + (1 + x.inside)) }
        ensures inserted { Inserted (seen self.old) (seen self.old) (seen self.new) i k e x }
        ensures same_slices { slices self.new ≡ slices self.old }
    {
        let n = x.inside as usize;
        self.open_gap(k, e, 1 + n);
        self.store(k, x);
        self.copy_within(i, n, k + 1);
    }
}
