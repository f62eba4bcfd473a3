// Powers of w where forms are 1.
ghost use Rattle.std.specs.Prelude.{◌≡◌, ◌+◌, ◌%◌, ◌≤◌, Bool, List, IfOk, IfSome, IsTrue};
ghost use Rattle.rv_forms.specs.Forms.{form_value};
ghost use Rattle.rv_joined.specs.Blocks.{parts, product_parts, weight};
ghost use Rattle.rv_joined.specs.inside.Slots.{AreMore, slot_power, total};

use crate::block::Block;
use rv_forms::{Form, constant, is_constant, is_same, sum, turned};
use std::alloc::{AllocError, Global};
use std::collections::HashMap;

/// A power of w where a form is 1.
#[derive(Drop)]
pub(crate) struct Slot {
    pub(crate) form: Form,
    pub(crate) power: u8,
}

/// The powers, and where a form is likely to be found.
#[derive(Drop)]
pub(crate) struct Slots {
    pub(crate) list: Vec<Slot>,
    pub(crate) places: HashMap<u64, usize>,
}

/// Bits of a number, mixed.
pub(crate) fn mixed(number: u64) -> u64 {
    let first = (number ^ (number >> 32)).wrapping_mul(0x9E37_79B9_7F4A_7C15);
    let second = (first ^ (first >> 29)).wrapping_mul(0xBF58_476D_1CE4_E5B9);
    second ^ (second >> 32)
}

/// A number for a form without its constant: that of a sum is the exclusive or of both.
pub(crate) fn number_of(form: &Form) -> u64 {
    let mut number = 0;
    for column in &form.columns {
        number ^= mixed(u64::from(*column) + 1);
    }
    number
}

// Adds to the slot of a form as it is.
fn add_plain(slots: &mut Slots, form: Form, power: u8) -> Result<(), AllocError>
    requires { power ≤ 8 }
    ensures { IfOk result (λ _.
        AreMore slots.old.list.items (λ bits. weight power (form_value bits form)) slots.new.list.items) }
{
    let number = number_of(&form) ^ u64::from(form.constant);
    let place = match slots.places.get(&number) {
        Some(place) => *place,
        None => usize::MAX,
    };
    if place < slots.list.len() && is_same(&slots.list[place].form, &form) {
        let old = slots.list[place].power;
        slots.list[place].power = old.wrapping_add(power) % 8;
        return Ok(());
    }
    let _old = slots.places.insert(number, slots.list.len())?;
    slots.list.push(Slot { form, power })?;
    Ok(())
}

/// Adds a power where a form is 1.
pub(crate) fn add(
    alloc: Global,
    slots: &mut Slots,
    form: &Form,
    power: u8,
) -> Result<(), AllocError>
    requires { power ≤ 8 }
    ensures { IfOk result (λ _.
        AreMore slots.old.list.items (λ bits. weight power (form_value bits form.now)) slots.new.list.items) }
{
    let plain = turned(alloc, form, form.constant)?;
    if !form.constant {
        add_plain(slots, plain, power)?;
        return Ok(());
    }
    add_plain(slots, constant(alloc, true), power)?;
    add_plain(slots, plain, 8 - power)?;
    Ok(())
}

/// Adds twice a power where two forms are 1.
pub(crate) fn add_product(
    alloc: Global,
    slots: &mut Slots,
    a: &Form,
    b: &Form,
    power: u8,
) -> Result<(), AllocError>
    requires { power ≤ 8 }
    ensures { IfOk result (λ _. AreMore slots.old.list.items
        (λ bits. product_parts power (form_value bits a.now) (form_value bits b.now)) slots.new.list.items) }
{
    let both = sum(alloc, a, b)?;
    add(alloc, slots, a, power)?;
    add(alloc, slots, b, power)?;
    add(alloc, slots, &both, 8 - power)?;
    Ok(())
}

/// Adds what a block brings, by the forms of its controls and of its target before and after it.
pub(crate) fn add_parts(
    alloc: Global,
    slots: &mut Slots,
    block: Block,
    a: &Form,
    c: &Form,
    before: &Form,
    after: &Form,
) -> Result<(), AllocError>
    ensures { IfOk result (λ _. AreMore slots.old.list.items
        (λ bits. parts block (form_value bits a.now) (form_value bits c.now) (form_value bits before.now)
        (form_value bits after.now))
        slots.new.list.items) }
{
    match block {
        Block::Plus => add_product(alloc, slots, a, c, 7)?,
        Block::Minus => add_product(alloc, slots, a, c, 1)?,
        Block::Before => {
            add_product(alloc, slots, a, c, 1)?;
            add_product(alloc, slots, a, before, 2)?;
        }
        Block::After => {
            add_product(alloc, slots, a, c, 7)?;
            add_product(alloc, slots, a, after, 2)?;
        }
    }
    Ok(())
}

// The sum of the forms with w^4, with that of a slot. `None` where its power is no multiple of 4.
fn with_slot(alloc: Global, half: Form, slot: &Slot) -> Result<Option<Form>, AllocError>
    ensures { IfOk result (λ o. IfSome o (λ more. (bits : List Bool)
        → weight 4 (form_value bits more) % 8 ≡ (weight 4 (form_value bits half) + slot_power bits slot.now) % 8)) }
{
    match slot.power % 8 {
        0 => Ok(Some(half)),
        4 => {
            let both = sum(alloc, &half, &slot.form)?;
            Ok(Some(both))
        }
        _ => Ok(None),
    }
}

/// Whether all powers together are none, whatever the columns' bits are: those that are not a multiple of 8 are 4,
/// and their forms add up to 0.
pub(crate) fn are_none(alloc: Global, slots: &[Slot]) -> Result<bool, AllocError>
    ensures { IfOk result (λ none. IsTrue none → (bits : List Bool) → total bits slots.now % 8 ≡ 0) }
{
    let mut half = constant(alloc, false);
    for slot in slots {
        half = match with_slot(alloc, half, slot)? {
            Some(more) => more,
            None => return Ok(false),
        };
    }
    Ok(is_constant(&half, false))
}
