// What is noted, as a plate's bits: the head, the foldings, and a rule from its four parts, which the driver reads again at the rule's place.
ghost use Rattle.std.specs.Prelude.{◌≡◌, true, map, ◌≤◌, length};
ghost use Rattle.laws.specs.Lists.{cat, split_at};
ghost use Rattle.chars.specs.Digits.{is_alternative};
ghost use Rattle.plate.specs.Bits.{bits_of};
ghost use Rattle.plate.specs.Plate.{most_bytes, most_foldings};
ghost use Rattle.plate.specs.Most.{most_rules};
ghost use Rattle.plate.specs.Written.{with_count, alternative_bits, field_bits, folding_bits, rule_bits, head_of};
ghost use Rattle.book.specs.Book.{field_fault, rule_fault};
ghost use Rattle.book.specs.Note.{rule_from};
ghost use Rattle.book.specs.Pen.{Ready, Wrote};
ghost use Rattle.book.specs.Sort.{folding_in, AllSmall};

use super::pen::Sheet;
use super::{Parts, TARGETS};
use chars::scan::count_of;
use plate::edition::head_of;

impl<'a> Sheet<'a> {
    // 01: "per alternative 3 bits digit count and 4 bits a digit".
    fn put_alternative(&mut self, digits: &[u8])
        requires { (is_alternative digits.now ≡ true) × Ready self.old (alternative_bits digits.now) }
        ensures { Wrote self.old (alternative_bits digits.now) self.new }
    {
        self.put(3, digits.len() as u64);
        for digit in digits {
            self.put(4, u64::from(*digit - b'0'));
        }
    }

    // 01: "three fields [..], each 4 bits count, then [the alternatives]".
    fn put_field(&mut self, field: &[u8], sep: u8)
        requires { (field_fault (split_at sep field.now) ≡ 0) × Ready self.old (field_bits (split_at sep field.now)) }
        ensures { Wrote self.old (field_bits (split_at sep field.now)) self.new }
    {
        self.put(4, count_of(field, sep) as u64 + 1);
        for alternative in field.split(|b| *b == sep) {
            self.put_alternative(alternative);
        }
    }

    // 01: "Rules: 5 bits pattern length in bytes, the bytes".
    fn put_pattern(&mut self, pattern: &[u8])
        requires { (length pattern.now ≤ most_bytes) × Ready self.old (with_count 5 (bits_of 8) pattern.now) }
        ensures { Wrote self.old (with_count 5 (bits_of 8) pattern.now) self.new }
    {
        self.put(5, pattern.len() as u64);
        for byte in pattern {
            self.put(8, u64::from(*byte));
        }
    }

    // 01: "then three fields".
    pub fn put_rule(&mut self, parts: Parts)
        requires { (rule_fault (rule_from parts) 0 ≡ 0) × Ready self.old (rule_bits (rule_from parts)) }
        ensures { Wrote self.old (rule_bits (rule_from parts.entry)) self.new }
    {
        self.put_pattern(parts.pattern);
        self.put_field(parts.start, parts.sep);
        self.put_field(parts.vowel, parts.sep);
        self.put_field(parts.other, parts.sep);
    }

    // 01: "Foldings, stored whatever the flag: 21 bits key, 21 bits target".
    pub fn put_foldings(&mut self, foldings: &[u64])
        requires { AllSmall foldings.now × Ready self.old (cat folding_bits (map folding_in foldings.now)) }
        ensures { Wrote self.old (cat folding_bits (map folding_in foldings.now)) self.new }
    {
        for folding in foldings {
            self.put(21, folding / TARGETS);
            self.put(21, folding % TARGETS);
        }
    }

    // 01: "8 bits edition 1; 10 bits rule count; 8 bits folding count; 1 bit folding flag; 5 zero bits"; the number and the count's width are the edition's.
    pub fn put_head(&mut self, rules: usize, foldings: usize, flag: bool)
        requires { (rules ≤ most_rules) × (foldings ≤ most_foldings) × Ready self.old (head_of rules foldings flag) }
        ensures { Wrote self.old (head_of rules foldings flag) self.new }
    {
        let head = head_of(rules);
        self.put(8, u64::from(head.number));
        self.put(head.width, rules as u64);
        self.put(8, foldings as u64);
        self.put(1, u64::from(flag));
        self.put(15 - head.width, 0);
    }
}
