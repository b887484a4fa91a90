// A text into the buffer of a call.
ghost use Rattle.checker.specs.Calls.{Written};

use crate::refused::CallRefusal;
use report::write_whole;
use sink::ToSink;

// From the buffer's start; a buffer that is too short is left as it was.
pub(super) fn write_text<T: ToSink>(what: &T, out: &mut [u8]) -> Result<usize, CallRefusal>
    ensures { Written (T.bytes what.now) out.old result out.new }
{
    write_whole(what, out).map_err(|_| CallRefusal::Short)
}
