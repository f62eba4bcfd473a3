ghost use Rattle.std.specs.Prelude.{◌≡◌, false, IfOk, IfErr};
ghost use Rattle.rv_real.specs.Text.{text_of};
ghost use Rattle.rv_templ.specs.BuiltIn.{built_in};
ghost use Rattle.rv_faults.specs.declared.fault.Refusal.TheVariants.{OutOfMemory};
ghost use Rattle.rv_inputs.specs.Formats.{refused_at};
ghost use Rattle.rv_words.specs.Settings.{IsAsked};
ghost use Rattle.rv_words.specs.declared.command.Command.TheVariants.{Templates};
ghost use Rattle.rv_cmd.specs.Commands.Templates.{IsSimplified, library_with, no_template, simplified_by};
ghost use Rattle.rv_cmd.specs.Commands.Templates.{simplified_report, template_limits, templates_report, templates_row};
ghost use Rattle.rv_cmd.specs.Limits.{AreKept, unlimited};
ghost use Rattle.rv_cmd.specs.Names.{names_read};
ghost use Rattle.rv_cmd.specs.inside.Making.{Makes};
ghost use Rattle.rv_cmd.specs.inside.Products.{IsProductOf, IsRefusalOf};
ghost use Rattle.rv_cmd.specs.Row.{always_told};

use crate::making::{OneInput, TwoInputs, of_one, of_two};
use crate::product::{Made, Product};
use rv_faults::{InputFault, Refusal, Unmade};
use rv_gate::Circuit;
use rv_io::Files;
use rv_links::Linked;
use rv_real::RealReader;
use rv_templ::{LibFault, Library, TEMPLATE_GATES, TEMPLATE_LINES, simplify_linked};
use rv_words::Settings;
use std::alloc::Global;

/// A circuit, simplified by the built-in templates, and by the one of a file where this is named.
pub(crate) fn templates<F: Files>(
    alloc: Global,
    settings: &Settings,
    files: &mut F,
) -> Result<Made, Unmade>
    requires asked { IsAsked settings.now }
    requires command { settings.now.command ≡ Templates }
    ensures { Makes (templates_row settings.now.library) (names_read settings.now) (F.view files.old)
        (F.view files.new) result }
{
    match &settings.library {
        None => of_one(alloc, settings, files, &BuiltIn),
        Some(_) => of_two(alloc, settings, files, &WithTemplate),
    }
}

// By the built-in templates.
struct BuiltIn;

impl OneInput for BuiltIn {
    type Text = RealReader;

    ghost report = { λ command. simplified_report };

    ghost Means = { λ command. IsSimplified built_in };

    fn make(&self, alloc: Global, circuit: &Circuit) -> Result<Product, Refusal> {
        match built_in(alloc) {
            Ok(library) => simplified(alloc, circuit, &library),
            Err(refusal) => Err(refusal),
        }
    }
}

// By the built-in templates, and by a given one after them.
struct WithTemplate;

impl TwoInputs for WithTemplate {
    type First = RealReader;

    type Second = RealReader;

    ghost report = { λ command. templates_report };

    ghost differs = { λ command c given. false };

    ghost Lacks = { λ command. always_told };

    ghost Means = { λ command c given. IsSimplified (library_with given) c };

    fn make(&self, alloc: Global, circuit: &Circuit, given: &Circuit) -> Result<Made, Refusal> {
        let library = match library_with(alloc, given) {
            Ok(library) => library,
            Err(refusal) => return Err(refusal),
        };
        match simplified(alloc, circuit, &library) {
            Ok(product) => Ok(product.alike()),
            Err(refusal) => Err(refusal),
        }
    }
}

fn built_in(alloc: Global) -> Result<Library, Refusal>
    ensures ok { IfOk result (λ library. library ≡ built_in) }
    ensures err { IfErr result (λ refusal. refusal ≡ OutOfMemory) }
{
    match Library::built_in(alloc) {
        Ok(library) => Ok(library),
        Err(_) => Err(Refusal::OutOfMemory),
    }
}

fn library_with(alloc: Global, given: &Circuit) -> Result<Library, Refusal>
    ensures kept { IfOk result (λ library. AreKept (template_limits given.now)) }
    ensures made { IfOk result (λ library. library ≡ library_with given.now) }
    ensures unmade { IfErr result (IsRefusalOf 2 (template_limits given.now)) }
{
    let mut library = match built_in(alloc) {
        Ok(library) => library,
        Err(refusal) => return Err(refusal),
    };
    match library.add(given) {
        Ok(()) => Ok(library),
        Err(fault) => Err(no_template(given.line_count(), fault)),
    }
}

// What is refused of a template of so many lines.
fn no_template(lines: u8, fault: LibFault) -> Refusal
    ensures { result ≡ refused_at 1 (no_template lines fault) }
{
    let why = match fault {
        LibFault::TooWide(count) => InputFault::WideTemplate {
            lines: count,
            most: TEMPLATE_LINES as u8,
        },
        LibFault::TooLong(count) => InputFault::LongTemplate {
            gates: count,
            most: TEMPLATE_GATES as u32,
        },
        LibFault::NotToffoli(place) => InputFault::NotToffoli { place },
        LibFault::NotIdentity { word, image } => InputFault::NotIdentity { lines, word, image },
        LibFault::Mem => return Refusal::OutOfMemory,
    };
    Refusal::Refused { input: 1, why }
}

// By the templates of a library.
fn simplified(alloc: Global, circuit: &Circuit, library: &Library) -> Result<Product, Refusal>
    ensures made { IfOk result
        (IsProductOf (unlimited (text_of (simplified_by library.now circuit.now)))
        (IsSimplified library.now circuit.now)) }
    ensures unmade { IfErr result (λ refusal. refusal ≡ OutOfMemory) }
{
    let mut linked = match Linked::from_circuit(alloc, circuit) {
        Ok(linked) => linked,
        Err(_) => return Err(Refusal::OutOfMemory),
    };
    simplify_linked(&mut linked, library);
    match linked.to_circuit(alloc) {
        Ok(simpler) => {
            simpler.recall_invariant();
            Ok(Product::Circuit(simpler))
        }
        Err(_) => Err(Refusal::OutOfMemory),
    }
}
