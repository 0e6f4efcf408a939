//! The subrate messages: no schedule is needed. A message's values go by value,
//! each message by an export of its own.
ghost use Rattle.std.specs.Prelude.{◌≡◌};
ghost use Rattle.rules.specs.declared.Message.TheVariants.{Default, Request, Change};
ghost use Rattle.rules.specs.ReadMessage.{read_message};
ghost use Rattle.rules.specs.WriteMessage.{write_message};
ghost use Rattle.door.specs.Numbers.{in_parts};
ghost use Rattle.door.specs.Promises.{Writes};

use crate::saying::{Kind, reading, refused, say};
use crate::{Read, Said};
use hci::{read_message, write_message};
use rules::{Message, SubrateChange, Subrates};

/// Reading a message.
#[unsafe(no_mangle)]
pub extern "C" fn beak_message_read(bytes: &[u8]) -> Read
    ensures { result ≡ in_parts (read_message bytes.now) }
{
    reading(read_message(bytes))
}

fn written(message: Message, buffer: &mut [u8]) -> Said
    ensures { Writes (write_message message buffer.old) buffer.new result }
{
    // a message is below 20 bytes: nothing is lost
    write_message(message, buffer).map_or_else(refused, |size| say(Kind::Wrote, size as u32))
}

/// Writing the default-subrate command.
#[unsafe(no_mangle)]
pub extern "C" fn beak_default_written(v: Subrates, buffer: &mut [u8]) -> Said
    ensures { Writes (write_message (Default v) buffer.old) buffer.new result }
{
    written(Message::Default(v), buffer)
}

/// Writing the subrate request command.
#[unsafe(no_mangle)]
pub extern "C" fn beak_request_written(handle: u16, v: Subrates, buffer: &mut [u8]) -> Said
    ensures { Writes (write_message (Request handle v) buffer.old) buffer.new result }
{
    written(Message::Request(handle, v), buffer)
}

/// Writing the subrate change event.
#[unsafe(no_mangle)]
pub extern "C" fn beak_change_written(e: SubrateChange, buffer: &mut [u8]) -> Said
    ensures { Writes (write_message (Change e) buffer.old) buffer.new result }
{
    written(Message::Change(e), buffer)
}
