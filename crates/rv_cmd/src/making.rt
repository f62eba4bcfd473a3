// What is made of the inputs of a command that reads them all first.
ghost use Rattle.std.specs.Prelude.{◌≡◌, ◌∷◌, ℕ, Bool, List, [], length, IfOk, IfErr};
ghost use Rattle.rv_inputs.specs.Formats.{format};
ghost use Rattle.rv_cmd.specs.Limits.{Limit, LimitedText, found_within};
ghost use Rattle.rv_cmd.specs.Names.{names_read};
ghost use Rattle.rv_cmd.specs.Row.{always, finds, one, tells, two};
ghost use Rattle.rv_cmd.specs.inside.Making.{Makes};
ghost use Rattle.rv_cmd.specs.inside.Products.{IsProductOf, IsRefusalOf, IsUntoldOf, product_text};
ghost use Rattle.rv_faults.specs.declared.fault.Refusal.{Refusal as AnyRefusal};

use crate::names::name_of;
use crate::product::{Made, Product};
use rv_faults::{Refusal, Unmade};
use rv_inputs::{InputText, read_one, read_two};
use rv_io::Files;
use rv_reader::TextReader;
use rv_words::Settings;
use std::alloc::Global;

/// A command of one input, with what its options ask for.
pub(crate) trait OneInput {
    /// The format of its input.
    type Text: InputText;

    /// What it makes of the object that its input denotes.
    ghost report: { Self → Self.Text.Object → LimitedText };

    /// What the text of that means.
    ghost Means: { Self → Self.Text.Object → List ℕ → Type 0 };

    /// Makes it.
    fn make(
        &self,
        alloc: Global,
        object: &<Self::Text as TextReader>::Object,
    ) -> Result<Product, Refusal>
        ensures made { IfOk result (IsProductOf (report self.now object.now) (Means self.now object.now)) }
        ensures unmade { IfErr result (IsRefusalOf 1 (report self.now object.now).limits) };
}

/// A command of one input that searches, and always ends with a text, with what its options ask for.
pub(crate) trait OneSearch {
    /// The format of its input.
    type Text: InputText;

    /// What has to hold before it writes.
    ghost limits: { Self → Self.Text.Object → List Limit };

    /// What any text that it finds means.
    ghost Means: { Self → Self.Text.Object → List ℕ → Type 0 };

    /// Finds one.
    fn find(
        &self,
        alloc: Global,
        object: &<Self::Text as TextReader>::Object,
    ) -> Result<Product, Refusal>
        ensures made { IfOk result
            (λ product. IsProductOf (found_within (limits self.now object.now) (product_text product))
            (Means self.now object.now) product) }
        ensures unmade { IfErr result (IsRefusalOf 1 (limits self.now object.now)) };
}

/// A command of two inputs, with what its options ask for.
pub(crate) trait TwoInputs {
    /// The format of its first input.
    type First: InputText;

    /// The format of its second input.
    type Second: InputText;

    /// What it makes of the objects that its inputs denote.
    ghost report: { Self → Self.First.Object → Self.Second.Object → LimitedText };

    /// Whether that says that the inputs differ.
    ghost differs: { Self → Self.First.Object → Self.Second.Object → Bool };

    /// Why there may be no report where the limits are kept.
    ghost Lacks: { Self → Self.First.Object → Self.Second.Object → AnyRefusal → Type 0 };

    /// What the text of that means.
    ghost Means: { Self → Self.First.Object → Self.Second.Object → List ℕ → Type 0 };

    /// Makes it.
    fn make(
        &self,
        alloc: Global,
        first: &<Self::First as TextReader>::Object,
        second: &<Self::Second as TextReader>::Object,
    ) -> Result<Made, Refusal>
        ensures made { IfOk result
            (λ made. IsProductOf (report self.now first.now second.now)
            (Means self.now first.now second.now) made.product) }
        ensures differs { IfOk result (λ made. made.differs ≡ differs self.now first.now second.now) }
        ensures unmade { IfErr result (IsUntoldOf 2 (report self.now first.now second.now).limits
            (Lacks self.now first.now second.now)) };
}

/// A command that looks how its two inputs differ, by a search, with what its options ask for.
pub(crate) trait TwoSearch {
    /// The format of its first input.
    type First: InputText;

    /// The format of its second input.
    type Second: InputText;

    /// What has to hold before it writes.
    ghost limits: { Self → Self.First.Object → Self.Second.Object → List Limit };

    /// Whether the inputs differ.
    ghost differs: { Self → Self.First.Object → Self.Second.Object → Bool };

    /// Why there may be no report where the limits are kept.
    ghost Lacks: { Self → Self.First.Object → Self.Second.Object → AnyRefusal → Type 0 };

    /// What any text that it finds means.
    ghost Means: { Self → Self.First.Object → Self.Second.Object → List ℕ → Type 0 };

    /// Finds one.
    fn tell(
        &self,
        alloc: Global,
        first: &<Self::First as TextReader>::Object,
        second: &<Self::Second as TextReader>::Object,
    ) -> Result<Made, Refusal>
        ensures made { IfOk result
            (λ made. IsProductOf (found_within (limits self.now first.now second.now) (product_text made.product))
            (Means self.now first.now second.now) made.product) }
        ensures differs { IfOk result (λ made. made.differs ≡ differs self.now first.now second.now) }
        ensures unmade { IfErr result (IsUntoldOf 2 (limits self.now first.now second.now)
            (Lacks self.now first.now second.now)) };
}

// Reads the input of this name, and makes what the command makes of it.
fn made_of_one<F: Files, C: OneInput>(
    alloc: Global,
    name: &str,
    files: &mut F,
    command: &C,
) -> Result<Made, Unmade>
    ensures { Makes (one (format C.Text.denoted C.Text.why) (C.report command.now) (C.Means command.now))
        (name.now ∷ []) (F.view files.old) (F.view files.new) result }
{
    match read_one::<F, C::Text>(alloc, name, files) {
        Ok(object) => match command.make(alloc, &object) {
            Ok(product) => Ok(product.alike()),
            Err(refusal) => Err(refusal.unmade()),
        },
        Err(unmade) => Err(unmade),
    }
}

// Reads the inputs of these names, and makes what the command makes of them.
fn made_of_two<F: Files, C: TwoInputs>(
    alloc: Global,
    first: &str,
    second: &str,
    files: &mut F,
    command: &C,
) -> Result<Made, Unmade>
    ensures { Makes
        (two (format C.First.denoted C.First.why) (format C.Second.denoted C.Second.why) (C.report command.now)
        (C.differs command.now) (C.Lacks command.now) (C.Means command.now))
        (first.now ∷ second.now ∷ []) (F.view files.old) (F.view files.new) result }
{
    match read_two::<F, C::First, C::Second>(alloc, first, second, files) {
        Ok((object, other)) => match command.make(alloc, &object, &other) {
            Ok(made) => Ok(made),
            Err(refusal) => Err(refusal.unmade()),
        },
        Err(unmade) => Err(unmade),
    }
}

// Reads the input of this name, and finds what the command searches for.
fn found_for_one<F: Files, C: OneSearch>(
    alloc: Global,
    name: &str,
    files: &mut F,
    command: &C,
) -> Result<Made, Unmade>
    ensures { Makes (finds (format C.Text.denoted C.Text.why) (C.limits command.now) always (C.Means command.now))
        (name.now ∷ []) (F.view files.old) (F.view files.new) result }
{
    match read_one::<F, C::Text>(alloc, name, files) {
        Ok(object) => match command.find(alloc, &object) {
            Ok(product) => Ok(product.alike()),
            Err(refusal) => Err(refusal.unmade()),
        },
        Err(unmade) => Err(unmade),
    }
}

// Reads the inputs of these names, and tells how they differ.
fn told_for_two<F: Files, C: TwoSearch>(
    alloc: Global,
    first: &str,
    second: &str,
    files: &mut F,
    command: &C,
) -> Result<Made, Unmade>
    ensures { Makes
        (tells (format C.First.denoted C.First.why) (format C.Second.denoted C.Second.why) (C.limits command.now)
        (C.differs command.now) (C.Lacks command.now) (C.Means command.now))
        (first.now ∷ second.now ∷ []) (F.view files.old) (F.view files.new) result }
{
    match read_two::<F, C::First, C::Second>(alloc, first, second, files) {
        Ok((object, other)) => match command.tell(alloc, &object, &other) {
            Ok(made) => Ok(made),
            Err(refusal) => Err(refusal.unmade()),
        },
        Err(unmade) => Err(unmade),
    }
}

/// What a command makes of the only input that the arguments name.
pub(crate) fn of_one<F: Files, C: OneInput>(
    alloc: Global,
    settings: &Settings,
    files: &mut F,
    command: &C,
) -> Result<Made, Unmade>
    requires { length (names_read settings.now) ≡ 1 }
    ensures { Makes (one (format C.Text.denoted C.Text.why) (C.report command.now) (C.Means command.now))
        (names_read settings.now) (F.view files.old) (F.view files.new) result }
{
    made_of_one(alloc, name_of(settings, 0), files, command)
}

/// What a command finds for the only input that the arguments name.
pub(crate) fn found_of_one<F: Files, C: OneSearch>(
    alloc: Global,
    settings: &Settings,
    files: &mut F,
    command: &C,
) -> Result<Made, Unmade>
    requires { length (names_read settings.now) ≡ 1 }
    ensures { Makes (finds (format C.Text.denoted C.Text.why) (C.limits command.now) always (C.Means command.now))
        (names_read settings.now) (F.view files.old) (F.view files.new) result }
{
    found_for_one(alloc, name_of(settings, 0), files, command)
}

/// What a command makes of the two inputs that the arguments name.
pub(crate) fn of_two<F: Files, C: TwoInputs>(
    alloc: Global,
    settings: &Settings,
    files: &mut F,
    command: &C,
) -> Result<Made, Unmade>
    requires { length (names_read settings.now) ≡ 2 }
    ensures { Makes
        (two (format C.First.denoted C.First.why) (format C.Second.denoted C.Second.why) (C.report command.now)
        (C.differs command.now) (C.Lacks command.now) (C.Means command.now))
        (names_read settings.now) (F.view files.old) (F.view files.new) result }
{
    made_of_two(
        alloc,
        name_of(settings, 0),
        name_of(settings, 1),
        files,
        command,
    )
}

/// How the two inputs that the arguments name differ, by a search.
pub(crate) fn told_of_two<F: Files, C: TwoSearch>(
    alloc: Global,
    settings: &Settings,
    files: &mut F,
    command: &C,
) -> Result<Made, Unmade>
    requires { length (names_read settings.now) ≡ 2 }
    ensures { Makes
        (tells (format C.First.denoted C.First.why) (format C.Second.denoted C.Second.why) (C.limits command.now)
        (C.differs command.now) (C.Lacks command.now) (C.Means command.now))
        (names_read settings.now) (F.view files.old) (F.view files.new) result }
{
    told_for_two(
        alloc,
        name_of(settings, 0),
        name_of(settings, 1),
        files,
        command,
    )
}
