// Values, each after a space, which is written with it.
ghost use Rattle.std.specs.Prelude.{◌∷◌};
ghost use Rattle.rules.specs.Text.{space};
ghost use Rattle.rules.specs.Listing.{value_text, message_text};
ghost use Rattle.buffer.specs.Outputs.{HasRoom, Wrote};
ghost use Rattle.listing.specs.StateWriting.{field_part};

use buffer::Output;
use rules::Value;

pub fn put_value(out: &mut Output, v: Value)
    requires { HasRoom 13 out.old }
    ensures { Wrote 13 out.old out.new (space ∷ value_text v) }
{
    match v {
        Value::Absent => out.put_text(b" absent"),
        Value::Obj(n) => {
            out.put_text(b" (obj");
            out.put_number(n as usize);
            out.put_byte(b')');
        }
        Value::Chan(c) => {
            out.put_text(b" (chan");
            out.put_number(c as usize);
            out.put_byte(b')');
        }
    }
}

// A field: nothing where the object has no such field.
pub fn put_field(out: &mut Output, v: Value)
    requires { HasRoom 13 out.old }
    ensures { Wrote 13 out.old out.new (field_part v) }
{
    match v {
        Value::Absent => {}
        _ => put_value(out, v),
    }
}

// What a channel holds.
pub fn put_message(out: &mut Output, v: Value)
    requires { HasRoom 13 out.old }
    ensures { Wrote 13 out.old out.new (space ∷ message_text v) }
{
    match v {
        Value::Absent => out.put_text(b" empty"),
        _ => put_value(out, v),
    }
}
