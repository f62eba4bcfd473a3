ghost use Rattle.std.specs.Prelude.{◌≡◌, ℕ, ◌+◌, ◌^◌, ◌<◌, ◌≤◌, ◌↔◌, List, [], ◌∷◌, ◌++◌, length, Some, None};
ghost use Rattle.std.specs.Prelude.{option_map, IfSome, IfOk, OnOk, OnErr};
ghost use Rattle.rv_templ.specs.declared.image.TheConstants.{TEMPLATE_GATES, TEMPLATE_LINES};
ghost use Rattle.rv_gate.specs.Gate.{is_flip, run_on_number};
ghost use Rattle.rv_templ.specs.BuiltIn.{built_in};
ghost use Rattle.rv_templ.specs.Choices.{template_in};
ghost use Rattle.rv_templ.specs.Templates.{IsTemplate, AreTemplates, first_other, first_changed, template_fault};
ghost use Rattle.rv_templ.specs.inside.Library.{templates_in};

use crate::LibFault;
use crate::built_in::templates;
use crate::image::{TEMPLATE_GATES, TEMPLATE_LINES};
use rv_gate::{Circuit, Gate, Shape, Word};
use std::alloc::{AllocError, Global};
use std::marker::Model;

/// The templates by which circuits are simplified, in their order.
///
/// A template is a list of at most [`TEMPLATE_GATES`] Toffoli gates on at most [`TEMPLATE_LINES`] lines that changes no
/// word. Contracts see the list of the templates.
#[derive(Drop)]
pub struct Library {
    templates: Vec<Vec<Gate>>,
}

impl Model for Library {
    ghost use Rattle.std.specs.Prelude.{List};
    ghost use Rattle.rv_gate.specs.declared.gate.Shape.{Shape as AnyShape};
    ghost use Rattle.rv_templ.specs.Templates.{AreTemplates};
    ghost use Rattle.rv_templ.specs.inside.Library.{templates_in};

    ghost Value = { List (List AnyShape) };

    ghost view = { λ l. templates_in l.templates.items };

    ghost invariant = { λ l. AreTemplates (templates_in l.templates.items) };
}

impl Library {
    /// The seven built-in templates. Fails only for want of memory.
    pub fn built_in(alloc: Global) -> Result<Library, AllocError>
        ensures built_in { IfOk result (λ l. l ≡ built_in) }

        // Each is a few flips on a few lines that change no word.
        ensures templates { AreTemplates built_in }
    {
        let templates = templates(alloc)?;
        Ok(Library { templates })
    }

    /// Adds the gates of a circuit as the last template, where they are one.
    pub fn add(&mut self, circuit: &Circuit) -> Result<(), LibFault>
        ensures ok { OnOk result (self.new ≡ self.old ++ circuit.now.gates ∷ []) }
        ensures template { OnOk result (IsTemplate circuit.now.gates) }
        ensures err { OnErr result (self.new ≡ self.old) }
        ensures too_wide { (n : ℕ)
            → (result ≡ Err (LibFault.TooWide n)) ↔ (template_fault circuit.now ≡ Some (LibFault.TooWide n)) }
        ensures too_long { (n : ℕ)
            → (result ≡ Err (LibFault.TooLong n)) ↔ (template_fault circuit.now ≡ Some (LibFault.TooLong n)) }
        ensures not_toffoli { (place : ℕ)
            → (result ≡ Err (LibFault.NotToffoli place)) ↔
            (template_fault circuit.now ≡ Some (LibFault.NotToffoli place)) }
        ensures not_identity { (word image : ℕ)
            → (result ≡ Err (LibFault.NotIdentity word image)) ↔
            (template_fault circuit.now ≡ Some (LibFault.NotIdentity word image)) }
    {
        circuit.recall_invariant();
        if let Some(fault) = template_fault(circuit) {
            return Err(fault);
        }
        push_copy(&mut self.templates, circuit.gates())?;
        Ok(())
    }

    /// The templates.
    pub(crate) fn templates(&self) -> &[Vec<Gate>]
        ensures value { templates_in result.now ≡ self.now }
        ensures templates { AreTemplates self.now }
    {
        &self.templates
    }
}

/// The template at a place.
pub(crate) fn template_of(templates: &[Vec<Gate>], t: usize) -> &[Gate]
    requires { t < length templates.now }
    ensures value { result.now ≡ template_in (templates_in templates.now) t }
    ensures template { AreTemplates (templates_in templates.now) → IsTemplate result.now }
{
    templates[t].as_slice()
}

// Puts a copy of these gates after the templates.
fn push_copy(templates: &mut Vec<Vec<Gate>>, gates: &[Gate]) -> Result<(), AllocError>
    ensures ok { OnOk result (templates_in templates.new.items ≡ templates_in templates.old.items ++ gates.now ∷ []) }
    ensures err { OnErr result (templates_in templates.new.items ≡ templates_in templates.old.items) }
{
    let alloc = *templates.allocator();
    let copy = Vec::from_slice(alloc, gates)?;
    match templates.push(copy) {
        Ok(()) => Ok(()),
        Err(_) => Err(AllocError),
    }
}

// The first gate, numbered from 1, that is no flip.
fn first_other(gates: &[Gate]) -> Option<u32>
    requires { length gates.now ≤ TEMPLATE_GATES }
    ensures { result ≡ first_other gates.now }
{
    for place in 0..gates.len() {
        let flip = gates[place].is_flip();
        if !flip {
            return Some(place as u32 + 1);
        }
    }
    None
}

// What the circuit makes of the word of a number.
fn image(circuit: &Circuit, number: u8) -> u8
    requires few { length circuit.now.names ≤ TEMPLATE_LINES }
    requires word { number < 2 ^ length circuit.now.names }
    ensures { result ≡ run_on_number circuit.now.gates (length circuit.now.names) number }
{
    match Word::new(circuit.line_count(), u64::from(number)) {
        Some(word) => circuit.run(word).number() as u8,
        None => unreachable!(),
    }
}

// The least word that the circuit changes.
fn first_changed(circuit: &Circuit) -> Option<u8>
    requires { length circuit.now.names ≤ TEMPLATE_LINES }
    ensures value { result ≡ first_changed (length circuit.now.names) circuit.now.gates }
    ensures word { IfSome result (λ x. x < 2 ^ length circuit.now.names) }
{
    let lines = circuit.line_count();
    for number in 0..1u8 << lines {
        let image = image(circuit, number);
        if image != number {
            return Some(number);
        }
    }
    None
}

// The first fault that the circuit has as a template.
fn template_fault(circuit: &Circuit) -> Option<LibFault>
    ensures { result ≡ template_fault circuit.now }
{
    let lines = circuit.line_count();
    if usize::from(lines) > TEMPLATE_LINES {
        return Some(LibFault::TooWide(lines));
    }
    let gates = circuit.gates();
    if gates.len() > TEMPLATE_GATES {
        return Some(LibFault::TooLong(gates.len() as u32));
    }
    if let Some(place) = first_other(gates) {
        return Some(LibFault::NotToffoli(place));
    }
    match first_changed(circuit) {
        Some(word) => Some(LibFault::NotIdentity {
            word,
            image: image(circuit, word),
        }),
        None => None,
    }
}
