// What a build of the table is lent.
ghost use Rattle.std.specs.Prelude.{◌≡◌};
ghost use Rattle.lent.specs.Lent.{short};
ghost use Rattle.filter.specs.Build.{work_needed, work_lengths};
ghost use Rattle.filter.specs.Held.{working};
ghost use Rattle.filter.specs.Lengths.{lengths};

// What a table is built of: the elements' middles and volumes, the radius, and the planes of symmetry, each by its point and its normal.
#[derive(Clone, Copy)]
pub struct Input<'a> {
    pub centroids: &'a [[f64; 3]],
    pub volumes: &'a [f64],
    pub radius: f64,
    pub planes: &'a [[f64; 6]],
}

// The lists of the table, which a build writes: where each row starts, and the elements and coefficients of the rows, one after the other.
#[derive(Drop)]
pub struct TableMut<'a> {
    pub starts: &'a mut [u32],
    pub near: &'a mut [u32],
    pub coef: &'a mut [f64],
}

// The lists that a build works in: one place an element, `first` one more, and `bits` 1,040.
#[derive(Drop)]
pub struct Work<'a> {
    pub cell: &'a mut [[u64; 3]],
    pub order: &'a mut [u32],
    pub first: &'a mut [u32],
    pub sorted: &'a mut [[f64; 3]],
    pub stamp: &'a mut [u32],
    pub weight: &'a mut [f64],
    pub found: &'a mut [u32],
    pub bits: &'a mut [u64],
}

// How long each of them is.
#[derive(Clone, Copy)]
pub struct WorkLengths {
    pub cell: usize,
    pub order: usize,
    pub first: usize,
    pub sorted: usize,
    pub stamp: usize,
    pub weight: usize,
    pub found: usize,
    pub bits: usize,
}

impl WorkLengths {
    pub fn of(work: &Work) -> WorkLengths
        ensures { lengths result ≡ work_lengths (working work.now) }
    {
        WorkLengths {
            cell: work.cell.len(),
            order: work.order.len(),
            first: work.first.len(),
            sorted: work.sorted.len(),
            stamp: work.stamp.len(),
            weight: work.weight.len(),
            found: work.found.len(),
            bits: work.bits.len(),
        }
    }

    // Whether one of them is too short for n elements.
    #[tactic(auto, unfolding(lent::specs::Lent::short))]
    pub fn is_short(self, n: usize) -> bool
        ensures { result ≡ short (lengths self) (work_needed n) }
    {
        (self.cell < n)
            | (self.order < n)
            | (self.first <= n)
            | (self.sorted < n)
            | (self.stamp < n)
            | (self.weight < n)
            | (self.found < n)
            | (self.bits < 1040)
    }
}
