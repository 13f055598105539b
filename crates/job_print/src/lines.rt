// The lines of an answer.
ghost use Rattle.std.specs.Prelude.{◌+◌, ◌*◌, ◌≤◌, length};
ghost use Rattle.lists.specs.Functions.{chain};
ghost use Rattle.foundation.specs.Printing.{spaced};
ghost use Rattle.job_print.specs.Page.{HasRoom, Wrote};
ghost use Rattle.job_print.specs.Lines.{numbers_line, value_line, value_lines};

use crate::digits::bits_of;
use crate::page::Page;

impl Page<'_> {
    // A space and a number.
    fn put_spaced(&mut self, n: usize)
        requires { HasRoom self.old 21 }
        ensures text { Wrote self.old self.new (spaced n) }
        ensures short { self.new.end ≤ self.old.end + 21 }
    {
        self.put_byte(b' ');
        self.put_decimal(n);
    }

    // Numbers, each behind a space.
    fn put_numbers(&mut self, numbers: &[usize])
        requires { HasRoom self.old (21 * length numbers.now) }
        ensures text { Wrote self.old self.new (chain spaced numbers.now) }
        ensures short { self.new.end ≤ self.old.end + 21 * length numbers.now }
    {
        for n in numbers {
            self.put_spaced(*n);
        }
    }

    // A word and numbers: the lines `plan`, `rows`, `updates` and `refused`.
    pub fn put_line(&mut self, word: &[u8], numbers: &[usize])
        requires { HasRoom self.old (length word.now + 21 * length numbers.now + 1) }
        ensures text { Wrote self.old self.new (numbers_line word.now numbers.now) }
        ensures short { self.new.end ≤ self.old.end + (length word.now + 21 * length numbers.now + 1) }
    {
        self.put_word(word);
        self.put_numbers(numbers);
        self.put_byte(b'\n');
    }

    // A line `x`: a row and the bits of its number.
    fn put_value(&mut self, row: usize, x: f64)
        requires { HasRoom self.old 40 }
        ensures text { Wrote self.old self.new (value_line row x) }
        ensures short { self.new.end ≤ self.old.end + 40 }
    {
        self.put_byte(b'x');
        self.put_spaced(row);
        self.put_byte(b' ');
        self.put_hex(16, bits_of(x));
        self.put_byte(b'\n');
    }

    // The solution, rows from 1 on.
    pub fn put_values(&mut self, values: &[f64])
        requires { HasRoom self.old (40 * length values.now) }
        ensures text { Wrote self.old self.new (value_lines 1 values.now) }
        ensures short { self.new.end ≤ self.old.end + 40 * length values.now }
    {
        for (i, x) in values.iter().enumerate() {
            self.put_value(i + 1, *x);
        }
    }
}
