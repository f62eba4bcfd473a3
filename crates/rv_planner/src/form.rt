// Exclusive sums of columns, as bits: first the inputs, then the products.

/// The column of the first product.
pub(crate) const FIRST: usize = 64;

/// The most products.
pub(crate) const MOST_PRODUCTS: usize = 320;

// A bit for each column, 64 in a word.
const WORDS: usize = 6;

/// There are so many columns.
pub(crate) const COLUMNS: usize = 384;

/// The exclusive sum of columns, and of 1 where `constant` is true.
#[derive(Clone, Copy)]
pub(crate) struct Form {
    words: [u64; WORDS],
    pub(crate) constant: bool,
}

impl Form {
    /// No column.
    pub(crate) fn zero() -> Form {
        Form {
            words: [0; WORDS],
            constant: false,
        }
    }

    /// One column.
    pub(crate) fn of(column: usize) -> Form {
        Form::zero().with(column)
    }

    /// The columns of so many inputs.
    pub(crate) fn inputs(count: usize) -> Form {
        let mut form = Form::zero();
        for column in 0..count.min(FIRST) {
            form = form.with(column);
        }
        form
    }

    fn word(&self, place: usize) -> u64 {
        match self.words.get(place) {
            Some(word) => *word,
            None => 0,
        }
    }

    /// The inputs, as bits.
    pub(crate) fn input_bits(&self) -> u64 {
        self.word(0)
    }

    #[inline(always)]
    pub(crate) fn has(&self, column: usize) -> bool {
        self.word(column / 64) >> (column % 64) & 1 == 1
    }

    /// One column more, or less.
    #[inline(always)]
    pub(crate) fn with(self, column: usize) -> Form {
        let mut form = self;
        if let Some(word) = form.words.get_mut(column / 64) {
            *word ^= 1u64 << (column % 64);
        }
        form
    }

    #[inline(always)]
    pub(crate) fn plus(self, other: Form) -> Form {
        let mut sum = self;
        for place in 0..WORDS {
            sum.words[place] ^= other.words[place];
        }
        sum.constant = self.constant != other.constant;
        sum
    }

    /// The columns of both, and the constant.
    #[inline(always)]
    pub(crate) fn within(self, other: Form) -> Form {
        let mut form = self;
        for place in 0..WORDS {
            form.words[place] &= other.words[place];
        }
        form
    }

    /// The columns that another form doesn't have, and the constant.
    pub(crate) fn without(self, other: &Form) -> Form {
        let mut form = self;
        for place in 0..WORDS {
            form.words[place] &= !other.words[place];
        }
        form
    }

    /// The columns of either.
    pub(crate) fn either(self, other: Form) -> Form {
        let mut form = self;
        for place in 0..WORDS {
            form.words[place] |= other.words[place];
        }
        form
    }

    pub(crate) fn turned(self, turn: bool) -> Form {
        let mut form = self;
        form.constant = self.constant != turn;
        form
    }

    /// The columns alone.
    pub(crate) fn linear(self) -> Form {
        let mut form = self;
        form.constant = false;
        form
    }

    /// The inputs and the constant.
    pub(crate) fn inputs_of(self) -> Form {
        let mut form = Form::zero();
        form.words[0] = self.words[0];
        form.constant = self.constant;
        form
    }

    /// The products alone.
    pub(crate) fn products(self) -> Form {
        let mut form = self.linear();
        form.words[0] = 0;
        form
    }

    /// Whether there is no column.
    #[inline(always)]
    pub(crate) fn is_empty(&self) -> bool {
        let mut any = 0;
        for place in 0..WORDS {
            any |= self.words[place];
        }
        any == 0
    }

    /// Whether all columns are in another form.
    pub(crate) fn is_within(&self, other: &Form) -> bool {
        let mut left = 0;
        for place in 0..WORDS {
            left |= self.words[place] & !other.words[place];
        }
        left == 0
    }

    /// Whether both have the same columns and constant.
    pub(crate) fn is(&self, other: &Form) -> bool {
        let mut differing = 0;
        for place in 0..WORDS {
            differing |= self.words[place] ^ other.words[place];
        }
        differing == 0 && self.constant == other.constant
    }

    /// The first column, if there is one.
    #[inline(always)]
    pub(crate) fn first(&self) -> Option<usize> {
        for place in 0..WORDS {
            let word = self.words[place];
            if word != 0 {
                return Some(place * 64 + word.trailing_zeros() as usize);
            }
        }
        None
    }

    /// How many columns there are.
    pub(crate) fn weight(&self) -> u32 {
        let mut weight = 0u32;
        for place in 0..WORDS {
            weight = weight.saturating_add(self.words[place].count_ones());
        }
        weight
    }

    // Whether the columns come before those of another form, the last ones first.
    fn is_before(&self, other: &Form) -> bool {
        for place in (0..WORDS).rev() {
            if self.words[place] != other.words[place] {
                return self.words[place] < other.words[place];
            }
        }
        false
    }

    /// Whether a form has fewer columns than another, or as many and comes first.
    pub(crate) fn is_lighter(&self, other: &Form) -> bool {
        let (mine, theirs) = (self.weight(), other.weight());
        mine < theirs || mine == theirs && self.is_before(other)
    }
}
