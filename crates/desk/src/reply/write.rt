// Writing replies behind a text that has room for them, which wants no memory.
ghost use Rattle.std.specs.Prelude.{◌+◌, ◌∷◌, length};
ghost use Rattle.desk.specs.Replies.{amounts, most_reply_bytes, reply_line, reply_text};
ghost use Rattle.desk.specs.Rooms.{HasRoom, Grows};
ghost use Rattle.desk.specs.declared.reply.Reply.TheVariants as says;

use super::Reply;
use itoa::{Buffer, Integer};

// Writes some text.
fn write_text(out: &mut String, text: &str)
    requires { HasRoom out.old (length text.now) }
    ensures { Grows out.old out.new text.now (length text.now) }
{
    out.push_str(text).unwrap();
}

// Writes a number after a semicolon.
fn write_field<I: Integer>(out: &mut String, number: I)
    requires { HasRoom out.old (1 + I.MAX_STR_LEN) }
    ensures { Grows out.old out.new (59 ∷ I.text number) (1 + I.MAX_STR_LEN) }
{
    write_text(out, ";");
    write_text(out, Buffer::new().format(number));
}

// Writes three amounts, each after a semicolon.
fn write_amounts(out: &mut String, first: i64, second: i64, third: i64)
    requires { HasRoom out.old 63 }
    ensures { Grows out.old out.new (amounts first second third) 63 }
{
    write_field(out, first);
    write_field(out, second);
    write_field(out, third);
}

fn write_issued(out: &mut String, premium: i64, reserve: i64, opening_result: i64)
    requires { HasRoom out.old 68 }
    ensures { Grows out.old out.new (reply_line (says.Issued premium reserve opening_result)) 68 }
{
    write_text(out, "issue");
    write_amounts(out, premium, reserve, opening_result);
}

fn write_closed(
    out: &mut String,
    number: u16,
    year: usize,
    interest_result: i64,
    risk_result: i64,
    reserve: i64,
)
    requires { HasRoom out.old 95 }
    ensures { Grows out.old out.new
        (reply_line (says.Closed number year interest_result risk_result reserve)) 95 }
{
    write_text(out, "close");
    write_field(out, number);
    write_field(out, year);
    write_amounts(out, interest_result, risk_result, reserve);
}

fn write_altered(out: &mut String, number: u16, premium: i64, reserve: i64, alteration_result: i64)
    requires { HasRoom out.old 74 }
    ensures { Grows out.old out.new
        (reply_line (says.Altered number premium reserve alteration_result)) 74 }
{
    write_text(out, "alter");
    write_field(out, number);
    write_amounts(out, premium, reserve, alteration_result);
}

fn write_left(out: &mut String, paid: i64, leaving_result: i64)
    requires { HasRoom out.old 47 }
    ensures { Grows out.old out.new (reply_line (says.Left paid leaving_result)) 47 }
{
    write_text(out, "leave");
    write_field(out, paid);
    write_field(out, leaving_result);
}

fn write_refused(out: &mut String, number: u8, line: usize, offset: usize)
    requires { HasRoom out.old 53 }
    ensures { Grows out.old out.new (reply_line (says.Refused number line offset)) 53 }
{
    write_text(out, "refused");
    write_field(out, number);
    write_field(out, line);
    write_field(out, offset);
}

// Writes the line of a reply without its line feed.
fn write_line(out: &mut String, reply: Reply)
    requires { HasRoom out.old 95 }
    ensures { Grows out.old out.new (reply_line reply) 95 }
{
    match reply {
        Reply::Issued {
            premium,
            reserve,
            result,
        } => write_issued(out, premium, reserve, result),
        Reply::Closed {
            number,
            year,
            interest_result,
            risk_result,
            reserve,
        } => write_closed(out, number, year, interest_result, risk_result, reserve),
        Reply::Altered {
            number,
            premium,
            reserve,
            result,
        } => write_altered(out, number, premium, reserve, result),
        Reply::Left { paid, result } => write_left(out, paid, result),
        Reply::Refused {
            number,
            line,
            offset,
        } => write_refused(out, number, line, offset),
    }
}

// Writes the line of a reply behind a text that has room for the longest one.
pub(crate) fn write_reply(out: &mut String, reply: Reply)
    requires { HasRoom out.old most_reply_bytes }
    ensures { Grows out.old out.new (reply_text reply) most_reply_bytes }
{
    write_line(out, reply);
    write_text(out, "\n");
}
