// Text and numbers at the end of a queue of bytes; what does not fit is left out.
ghost use Rattle.std.specs.Prelude.{[], ◌∷◌, decimal};
ghost use Rattle.printing.specs.Lines.{line};
ghost use Rattle.printing.specs.Prints.{Printed};

use line::Queue;

// Each function takes the queue itself: in a struct around it, what it wrote would not be known of the lent memory.
fn byte(out: &mut Queue<u8>, b: u8)
    ensures { Printed out.old (b ∷ []) out.new }
{
    let _ = out.push(b);
}

fn text(out: &mut Queue<u8>, bytes: &[u8])
    ensures { Printed out.old bytes.now out.new }
{
    for b in bytes {
        byte(out, *b);
    }
}

// A number in decimal digits; not by a crate for it, whose statements would be trusted.
fn number(out: &mut Queue<u8>, n: u64)
    ensures { Printed out.old (decimal n) out.new }
{
    if n < 10 {
        byte(out, b'0' + n as u8);
        return;
    }
    number(out, n / 10);
    byte(out, b'0' + (n % 10) as u8);
}

// A word, numbers in decimal, each after a blank, and the end of the line.
// Not by `write!`: that says what was written only where it answers `Ok`, and nothing says that it does.
pub(crate) fn line(out: &mut Queue<u8>, word: &[u8], numbers: &[u64])
    ensures { Printed out.old (line word.now numbers.now) out.new }
{
    text(out, word);
    for n in numbers {
        byte(out, b' ');
        number(out, *n);
    }
    byte(out, b'\n');
}
