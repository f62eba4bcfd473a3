ghost use Rattle.std.specs.Prelude.{◌≡◌, ◌≤◌};
ghost use Rattle.rv_io.specs.Sink.{Sends};
ghost use Rattle.rv_io.specs.Writer.{Adds};
ghost use Rattle.rv_faults.specs.Fault.{message_line};
ghost use Rattle.rv_faults.specs.Line.{Reports};
ghost use Rattle.rv_faults.specs.Arguments.{status_of_arguments, arguments_reason};

use rv_io::{Sink, WriteFault, Writer};
use rv_words::{ArgumentFault, option_name};

/// The exit status of arguments that are refused.
pub fn status_of_arguments(fault: &ArgumentFault) -> u8
    ensures { result ≡ status_of_arguments fault.now }
{
    match fault {
        ArgumentFault::Mem => 6,
        _ => 2,
    }
}

/// Sends the line of arguments that are refused and flushes it. That this fails changes nothing else.
pub fn report_arguments<E: Sink>(errs: &mut E, fault: &ArgumentFault)
    ensures reports { Reports (message_line (arguments_reason fault.now)) (E.view errs.old) (E.view errs.new) }
    ensures later { (E.view errs.old).faults ≤ (E.view errs.new).faults }
{
    if let Ok(()) = put_arguments_message(errs, fault) {
        let _ = errs.flush();
    }
}

// Sends the line of arguments that are refused.
fn put_arguments_message<E: Sink>(errs: &mut E, fault: &ArgumentFault) -> Result<(), WriteFault>
    ensures { Sends (E.view errs.old) (message_line (arguments_reason fault.now)) result (E.view errs.new) }
{
    let mut writer = Writer::new();
    writer.put(errs, b"rev: ");
    put_arguments_reason(&mut writer, errs, fault);
    writer.put(errs, b"\n");
    writer.finish(errs)
}

// Why arguments are refused.
fn put_arguments_reason<E: Sink>(writer: &mut Writer, errs: &mut E, fault: &ArgumentFault)
    ensures { Adds writer.old (E.view errs.old) (arguments_reason fault.now) writer.new (E.view errs.new) }
{
    match fault {
        ArgumentFault::NotUnderstood => writer.put(errs, b"words not understood"),
        ArgumentFault::UnknownCommand(name) => {
            writer.put(errs, b"unknown command ");
            writer.put(errs, name.text().as_bytes());
        }
        ArgumentFault::NotUsed(command, place) => {
            writer.put(errs, b"option --");
            writer.put(errs, option_name(*place).as_bytes());
            writer.put(errs, b" not used by ");
            writer.put(errs, command.name().as_bytes());
        }
        ArgumentFault::BadValue(place) => {
            writer.put(errs, b"bad value for --");
            writer.put(errs, option_name(*place).as_bytes());
        }
        ArgumentFault::InputCount(command) => {
            writer.put(errs, b"wrong number of inputs for ");
            writer.put(errs, command.name().as_bytes());
        }
        ArgumentFault::TwiceStandard => writer.put(errs, b"standard input named twice"),
        ArgumentFault::Mem => writer.put(errs, b"out of memory"),
    }
}
