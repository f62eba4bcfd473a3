// Phases: powers of the eighth root of one, as numbers modulo 8.
ghost use Rattle.std.specs.Prelude.{◌≡◌, ◌+◌, ◌*◌, ◌%◌, ◌<◌, ◌≤◌, ◌&&◌, List, [], ◌∷◌, Bool, true, false, IfOk, IfSome, IsTrue, IsFalse, length, slice_set, if◌then◌else◌};
ghost use Rattle.rv_gate.specs.Word.{bit_of};
ghost use Rattle.rv_gate.specs.declared.word.TheConstants.{MOST_LINES};
ghost use Rattle.rv_terms.specs.Products.{value, parity, odd, always};
ghost use Rattle.rv_terms.specs.Phases.{total, total_kept, power};
ghost use Rattle.rv_terms.specs.inside.Put.{IsPut};

use crate::fault::SumFault;
use crate::kept::{Kept, add_kept, copies};
use crate::product::Product;
use crate::sum::{Sum, parted, replaced, settled};
use crate::terms::{Term, add_term, lift};
use rv_gate::MOST_LINES;
use std::alloc::{AllocError, Global};

// The most products of a sum that is lifted at once: by an odd weight, and by an even one.
const MOST_ODD: usize = 6;

const MOST_EVEN: usize = 24;

/// The weights of products and of sums, modulo 8.
#[derive(Drop)]
pub struct Phases {
    pub(crate) terms: Vec<Term>,
    pub(crate) kept: Vec<Kept>,
}

// Whether a sum of so many products is lifted at once.
fn is_short(count: usize, weight: u8) -> bool {
    weight == 4 || count <= MOST_ODD || weight % 2 == 0 && count <= MOST_EVEN
}

impl Phases {
    /// No phase.
    pub fn new(alloc: Global) -> Phases
        ensures { (x v : List Bool) → power result x v ≡ 0 }
    {
        Phases {
            terms: Vec::new(alloc),
            kept: Vec::new(alloc),
        }
    }

    /// The same phases.
    pub fn copy(&self, alloc: Global) -> Result<Phases, AllocError>
        ensures { IfOk result (λ phases. (x v : List Bool) → power phases x v ≡ power self.now x v) }
    {
        let terms = Vec::from_slice(alloc, &self.terms)?;
        let kept = copies(alloc, &self.kept)?;
        Ok(Phases { terms, kept })
    }

    /// How many products there are, in sums that are kept too.
    pub fn len(&self) -> usize {
        let mut count = self.terms.len();
        for kept in &self.kept {
            count = count.saturating_add(kept.sum.len());
        }
        count
    }

    /// The products and their weights. Sums that are kept aren't among them.
    pub fn terms(&self) -> &[Term] {
        &self.terms
    }

    /// Adds a product.
    pub fn add(&mut self, product: Product, weight: u8) -> Result<(), AllocError>
        ensures { IfOk result (λ _. (x v : List Bool)
            → power self.new x v ≡ (power self.old x v + (if value product x v then weight else 0)) % 8) }
    {
        add_term(&mut self.terms, product, weight)?;
        Ok(())
    }

    /// Adds a sum.
    pub fn add_sum(&mut self, sum: &Sum, weight: u8) -> Result<(), SumFault>
        ensures { IfOk result (λ _. (x v : List Bool)
            → power self.new x v ≡ (power self.old x v + (if odd sum.now x v then weight else 0)) % 8) }
    {
        let products = &sum.products[..];
        let weight = weight % 8;
        if products.len() > 0 && products[0] == Product::ONE {
            self.add(Product::ONE, weight)?;
            self.add_rest(&products[1..], (8 - weight) % 8)?;
        } else {
            self.add_rest(products, weight)?;
        }
        Ok(())
    }

    // Adds a sum: a long one is kept whole.
    fn add_rest(&mut self, products: &[Product], weight: u8) -> Result<(), SumFault>
        ensures { IfOk result (λ _. (x v : List Bool)
            → power self.new x v ≡ (power self.old x v + (if parity products.now x v then weight else 0)) % 8) }
    {
        if is_short(products.len(), weight) {
            self.add_all(products, weight)?;
        } else {
            add_kept(&mut self.kept, products, weight)?;
        }
        Ok(())
    }

    // Adds a sum, product by product.
    fn add_all(&mut self, products: &[Product], weight: u8) -> Result<(), SumFault>
        ensures { IfOk result (λ _. (x v : List Bool)
            → power self.new x v ≡ (power self.old x v + (if parity products.now x v then weight else 0)) % 8) }
    {
        lift(&mut self.terms, products, weight)?;
        Ok(())
    }

    /// Lifts the sums that are kept.
    pub fn open(&mut self) -> Result<(), SumFault>
        ensures { IfOk result (λ _. (x v : List Bool) → power self.new x v ≡ power self.old x v) }
    {
        while let Some(kept) = self.kept.pop() {
            lift(&mut self.terms, &kept.sum.products, kept.weight)?;
        }
        Ok(())
    }

    /// Whether nothing is left: no product and no sum.
    pub fn is_nothing(&self) -> bool
        ensures { IsTrue result → (x v : List Bool) → power self.now x v ≡ 0 }
    {
        self.terms.is_empty() && self.kept.is_empty()
    }

    /// Whether a path bit stands in them.
    pub fn has_path(&self, path: u8) -> bool
        requires { path < MOST_LINES }
        ensures { IsFalse result → (x v : List Bool) (bit : Bool)
            → power self.now x (slice_set v path bit) ≡ power self.now x v }
    {
        for term in &self.terms {
            if term.product.has_path(path) {
                return true;
            }
        }
        for kept in &self.kept {
            if kept.sum.has_path(path) {
                return true;
            }
        }
        false
    }

    // Adds a product in which a bit is replaced by a sum.
    fn add_replaced(
        &mut self,
        alloc: Global,
        term: Term,
        bit: Product,
        with: &Sum,
    ) -> Result<(), SumFault>
        ensures { IfOk result (λ _. (x v y w : List Bool) → IsPut bit with.now.products.items x v y w
            → power self.new x v ≡ (power self.old x v + (if value term.product y w then term.weight else 0)) % 8) }
    {
        if term.product.meets(bit) {
            let sum = with.scaled(alloc, term.product.less(bit))?;
            self.add_sum(&sum, term.weight)?;
        } else {
            self.add(term.product, term.weight)?;
        }
        Ok(())
    }

    // Phases in which a bit is replaced by a sum.
    fn replaced(&self, alloc: Global, bit: Product, with: &Sum) -> Result<Phases, SumFault>
        ensures { IfOk result (λ phases. (x v y w : List Bool) → IsPut bit with.now.products.items x v y w
            → power phases x v ≡ power self.now y w) }
    {
        let mut made = Phases::new(alloc);
        for term in &self.terms {
            made.add_replaced(alloc, *term, bit, with)?;
        }
        for kept in &self.kept {
            let sum = replaced(alloc, &kept.sum.products, bit, &with.products)?;
            made.add_sum(&sum, kept.weight)?;
        }
        Ok(made)
    }

    /// The phases in which a sum stands for a line.
    pub fn replaced_line(&self, alloc: Global, line: u8, with: &Sum) -> Result<Phases, SumFault>
        requires { line < MOST_LINES }
        ensures { IfOk result (λ phases. (x v : List Bool) → line < length x
            → power phases x v ≡ power self.now (slice_set x line (odd with.now x v)) v) }
    {
        let phases = self.replaced(alloc, Product::of_line(line), with)?;
        Ok(phases)
    }

    /// The phases in which a sum stands for a path bit: where the sum is 0, what is left without this bit.
    pub fn replaced_path(&self, alloc: Global, path: u8, with: &Sum) -> Result<Phases, SumFault>
        requires { path < MOST_LINES }
        ensures { IfOk result (λ phases. (x v : List Bool) → path < length v
            → power phases x v ≡ power self.now x (slice_set v path (odd with.now x v))) }
    {
        let phases = self.replaced(alloc, Product::of_path(path), with)?;
        Ok(phases)
    }

    // Adds what a sum brings more where a bit is 1: [y a + b] = [b] + y ([a] - 2 [a b]).
    fn add_part(&mut self, alloc: Global, kept: &Kept, bit: Product) -> Result<(), SumFault>
        ensures { IfOk result (λ _. (x v y w z u : List Bool)
            → IsPut bit [] x v y w → IsPut bit (always ∷ []) x v z u
            → (power self.new x v + (if odd kept.now.sum y w then kept.now.weight else 0)) % 8
            ≡ (power self.old x v + (if odd kept.now.sum z u then kept.now.weight else 0)) % 8) }
    {
        let (with, rest) = parted(alloc, &kept.sum.products, bit)?;
        let both = with.times(alloc, &rest)?;
        self.add_all(&with.products, kept.weight)?;
        self.add_all(&both.products, (16 - kept.weight % 8 * 2) % 8)?;
        Ok(())
    }

    /// What a path bit brings where it is 1. It stands in no part of it.
    pub fn part(&self, alloc: Global, path: u8) -> Result<Phases, SumFault>
        requires { path < MOST_LINES }
        ensures { IfOk result (λ part. (x v : List Bool) → path < length v
            → power self.now x (slice_set v path true)
            ≡ (power self.now x (slice_set v path false) + power part x v) % 8) }
    {
        let bit = Product::of_path(path);
        let mut part = Phases::new(alloc);
        for term in &self.terms {
            if term.product.meets(bit) {
                part.add(term.product.less(bit), term.weight)?;
            }
        }
        for kept in &self.kept {
            part.add_part(alloc, kept, bit)?;
        }
        Ok(part)
    }

    /// Phases that are 0 and 4 alone, as 4 times a sum. `None` where another weight is in them.
    pub fn signs(&self, alloc: Global) -> Result<Option<Sum>, AllocError>
        ensures { IfOk result (λ o. IfSome o (λ sum. (x v : List Bool)
            → power self.now x v ≡ (if odd sum x v then 4 else 0))) }
    {
        if !self.kept.is_empty() {
            return Ok(None);
        }
        let mut made = Vec::new(alloc);
        for term in &self.terms {
            if term.weight != 4 {
                return Ok(None);
            }
            made.push(term.product)?;
        }
        let sum = settled(alloc, made)?;
        Ok(Some(sum))
    }
}
