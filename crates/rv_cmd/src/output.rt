ghost use Rattle.std.specs.Prelude.{◌≤◌, OnOk, OnErr};
ghost use Rattle.rv_io.specs.Sink.{IsFlushed};
ghost use Rattle.rv_cmd.specs.inside.Products.{product_text};
ghost use Rattle.rv_cmd.specs.inside.Sending.{IsBroken, IsUnflushed, IsWhole};

use crate::product::Product;
use rv_io::{Flushed, Sink, WriteFault};

/// Sends the text of a product and flushes it.
pub(crate) fn send<O: Sink>(product: &Product, out: &mut O) -> Result<(), WriteFault>
    ensures whole { OnOk result (IsWhole (product_text product.now) (O.view out.old) (O.view out.new)) }
    ensures broken { OnErr result (IsBroken (product_text product.now) (O.view out.old) (O.view out.new)) }
    ensures later { (O.view out.old).faults ≤ (O.view out.new).faults }
{
    match product.put(out) {
        Ok(()) => flush(out),
        Err(fault) => Err(fault),
    }
}

/// Flushes what was sent.
pub(crate) fn flush<O: Sink>(out: &mut O) -> Result<(), WriteFault>
    ensures flushed { OnOk result (IsFlushed (O.view out.old) (O.view out.new)) }
    ensures unflushed { OnErr result (IsUnflushed (O.view out.old) (O.view out.new)) }
    ensures later { (O.view out.old).faults ≤ (O.view out.new).faults }
{
    match out.flush() {
        Flushed::Done => Ok(()),
        Flushed::Failed => Err(WriteFault),
    }
}
