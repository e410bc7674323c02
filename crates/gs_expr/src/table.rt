//! Tables under the operators. Bit `i` of a table is a value in row `i`, so one operation serves all rows at once.
#![tactic(auto)]

ghost use Rattle.std.specs.Prelude.{◌≡◌, ◌≤◌};
ghost use Rattle.gs_expr.specs.Machine.{after_caret, after_plus, after_star, flip_if, fresh, parity_with, product_with, sum_with, used};

/// What waits for an operand, at one depth of parentheses.
#[derive(Clone, Copy, Debug, PartialEq, Eq)]
pub struct Waits {
    /// The table of the operands before a `+`.
    pub sum: Option<u64>,
    /// The table of the factors before a `*`, or before a neighbour.
    pub product: Option<u64>,
    /// The table of the operands before a `^`.
    pub parity: Option<u64>,
    /// Whether the number of `!` before the operand is odd.
    pub flips: bool,
}

/// A table with all rows changed, where it is to be.
fn flip_if(flips: bool, table: u64) -> u64
    ensures { result ≡ flip_if flips table }
{
    if flips { table ^ u64::MAX } else { table }
}

/// The bits of a table over so many names.
pub fn used(count: usize) -> u64
    requires { count ≤ 6 }
    ensures { result ≡ used count }
{
    match count {
        0 => 0x1,
        1 => 0x3,
        2 => 0xF,
        3 => 0xFF,
        4 => 0xFFFF,
        5 => 0xFFFF_FFFF,
        _ => u64::MAX,
    }
}

impl Waits {
    /// What waits where nothing was read.
    pub fn fresh() -> Waits
        ensures { result ≡ fresh }
    {
        Waits {
            sum: None,
            product: None,
            parity: None,
            flips: false,
        }
    }

    /// The parity that this operand ends.
    fn parity_with(self, table: u64) -> u64
        ensures { result ≡ parity_with self table }
    {
        let operand = flip_if(self.flips, table);
        match self.parity {
            None => operand,
            Some(before) => before ^ operand,
        }
    }

    /// The product that this operand ends.
    fn product_with(self, table: u64) -> u64
        ensures { result ≡ product_with self table }
    {
        let factor = self.parity_with(table);
        match self.product {
            None => factor,
            Some(before) => before & factor,
        }
    }

    /// The sum that this operand ends.
    pub fn sum_with(self, table: u64) -> u64
        ensures { result ≡ sum_with self table }
    {
        let term = self.product_with(table);
        match self.sum {
            None => term,
            Some(before) => before | term,
        }
    }

    /// What waits after this operand and a `^`.
    pub fn after_caret(self, table: u64) -> Waits
        ensures { result ≡ after_caret self table }
    {
        Waits {
            sum: self.sum,
            product: self.product,
            parity: Some(self.parity_with(table)),
            flips: false,
        }
    }

    /// What waits after this operand and a `*`, or before a neighbour.
    pub fn after_star(self, table: u64) -> Waits
        ensures { result ≡ after_star self table }
    {
        Waits {
            sum: self.sum,
            product: Some(self.product_with(table)),
            parity: None,
            flips: false,
        }
    }

    /// What waits after this operand and a `+`.
    pub fn after_plus(self, table: u64) -> Waits
        ensures { result ≡ after_plus self table }
    {
        Waits {
            sum: Some(self.sum_with(table)),
            product: None,
            parity: None,
            flips: false,
        }
    }
}
