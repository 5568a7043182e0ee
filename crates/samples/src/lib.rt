// The tapes of document 01's bench cases and of its further examples, written entry by entry from the definitions in its text.
#![tactic(auto)]

use area::{AREA_SIZE, Writer, empty, finish, put, put_text};
use grammar::code;

// The tape of the six definitions, and its length.
pub fn registry(tape: &mut [u8]) -> usize {
    let mut sheet = Sheet::blank();
    sheet.definitions();
    sheet.finish(tape)
}

// The tape of a case's condition, and its length. Case 15 is e(1, 2), and case 16 what it becomes.
// The number is the input: the case as document 01 counts them.
pub fn condition(case: u32, tape: &mut [u8]) -> usize {
    let mut sheet = Sheet::blank();
    sheet.input(case);
    sheet.finish(tape)
}

// An area that entries are written to. It derives neither Debug nor equality, since what it holds is a buffer.
#[derive(Drop)]
struct Sheet {
    area: [u8; AREA_SIZE],
    out: Writer,
}

impl Sheet {
    fn blank() -> Sheet {
        Sheet {
            area: [0; AREA_SIZE],
            out: empty(0),
        }
    }

    // Writes the tape of the entries, and answers its length.
    fn finish(&self, tape: &mut [u8]) -> usize {
        let out = self.out;
        finish(&self.area, out, tape);
        if out.n <= 1024 && out.t <= 3072 {
            8 + 9 * out.n + out.t
        } else {
            0
        }
    }

    fn put(&mut self, code: u8, value: u64) {
        self.out = put(&mut self.area, self.out, code, value);
    }

    // An entry whose text is one letter, as all names here are.
    fn letter(&mut self, code: u8, letter: u8) {
        self.out = put_text(&mut self.area, self.out, code, &[letter]);
    }
}

// Pieces, with spans 0..0.
impl Sheet {
    // P with a number of fields still to come: no namespace, action P, empty kind.
    fn p(&mut self, fields: u64) {
        self.put(code::PREDICATE, 0);
        self.put(code::SPAN, 0);
        self.put(code::LIST, 0);
        self.letter(code::TEXT, b'P');
        self.put(code::TEXT, 0);
        self.put(code::LIST, fields);
    }

    // A field with an integer.
    fn field(&mut self, name: u8, value: u64) {
        self.letter(code::TEXT, name);
        self.put(code::INTEGER, value);
    }

    // A field with `?sigil` (PARAM_REF) or `$sigil` (BINDER_REF).
    fn sigil_field(&mut self, name: u8, code: u8, sigil: u8) {
        self.letter(code::TEXT, name);
        self.letter(code, sigil);
    }

    // A definition with a number of parameters, which are still to come, as its body is.
    fn define(&mut self, name: u8, params: u64) {
        self.put(code::DEFINITION, 0);
        self.letter(code::TEXT, name);
        self.put(code::LIST, params);
    }

    fn param(&mut self, name: u8) {
        self.put(code::SPAN, 0);
        self.letter(code::TEXT, name);
    }

    // A definition with one parameter and a condition for its body, which is still to come.
    fn define_one(&mut self, name: u8, parameter: u8) {
        self.define(name, 1);
        self.param(parameter);
        self.put(code::BODY_CONDITION, 0);
    }

    // A bare call with its span 7..9, its arguments still to come.
    fn call(&mut self, name: u8, args: u64) {
        self.put(code::CALL, 0);
        self.put(code::CALLED, 7 + 9 * 0x1_0000_0000);
        self.letter(code::TEXT, name);
        self.put(code::LIST, args);
    }

    // A bare call with one argument, of which the kind is there.
    fn call_with(&mut self, name: u8, kind: u8) {
        self.call(name, 1);
        self.put(kind, 0);
    }

    fn integer_argument(&mut self, value: u64) {
        self.put(code::ARG_TERM, 0);
        self.put(code::INTEGER, value);
    }

    // `P{a: 2}`, `P{f: 2}`
    fn p_with_two(&mut self, name: u8) {
        self.p(1);
        self.field(name, 2);
    }
}

// The definitions.
impl Sheet {
    fn definitions(&mut self) {
        self.put(code::LIST, 6);
        self.define_m();
        self.define_k();
        self.define_w();
        self.define_b();
        self.define_z();
        self.define_e();
    }

    // m(x) `P{f: ?x, g: $t}`
    fn define_m(&mut self) {
        self.define_one(b'm', b'x');
        self.p(2);
        self.sigil_field(b'f', code::PARAM_REF, b'x');
        self.sigil_field(b'g', code::BINDER_REF, b't');
    }

    // k(s) `?s{h: 1}`, Refine span 3..4
    fn define_k(&mut self) {
        self.define_one(b'k', b's');
        self.put(code::REFINE, 0);
        self.put(code::SPAN, 3 + 4 * 0x1_0000_0000);
        self.put(code::SIGIL_REF, 0);
        self.letter(code::SIGIL_PARAM, b's');
        self.put(code::LIST, 1);
        self.field(b'h', 1);
    }

    // w(d) `formerly ?d P{}`
    fn define_w(&mut self) {
        self.define_one(b'w', b'd');
        self.put(code::FORMERLY, 0);
        self.letter(code::WITHIN_PARAM, b'd');
        self.p(0);
    }

    // b(v) `exists ?v, tp(?v)`, of the type Timepoint
    fn define_b(&mut self) {
        self.define_one(b'b', b'v');
        self.put(code::EXISTS, 0);
        self.letter(code::SLOT_PARAM, b'v');
        self.put(code::TYPE_TIMEPOINT, 0);
        self.put(code::TP, 0);
        self.letter(code::SLOT_PARAM, b'v');
    }

    // z() `$b`
    fn define_z(&mut self) {
        self.define(b'z', 0);
        self.put(code::BODY_CONDITION, 0);
        self.put(code::SIGIL_REF, 0);
        self.letter(code::SIGIL_BINDER, b'b');
    }

    // e(x, x) `P{f: ?x}`
    fn define_e(&mut self) {
        self.define(b'e', 2);
        self.param(b'x');
        self.param(b'x');
        self.put(code::BODY_CONDITION, 0);
        self.p(1);
        self.sigil_field(b'f', code::PARAM_REF, b'x');
    }
}

// The inputs.
impl Sheet {
    fn input(&mut self, case: u32) {
        match case {
            1 | 3 | 4 => self.call_with_five(b'm'),
            2 => self.call(b'm', 0),
            5 => self.call_with_sigil(),
            6 => self.call_with_p(),
            7 => self.call_with_negation(),
            8 => self.field_with_array(),
            9 => self.field_with_sum(),
            10 => self.compared_array(),
            11 => self.call_with_hour(),
            12 => self.call_with_identifier(),
            13 => self.call_with_five(b'b'),
            14 => self.call(b'z', 0),
            16 => self.p_with_two(b'f'),
            _ => self.call_with_two(),
        }
    }

    // m(5), b(5)
    fn call_with_five(&mut self, name: u8) {
        self.call(name, 1);
        self.integer_argument(5);
    }

    // m(?y)
    fn call_with_sigil(&mut self) {
        self.call_with(b'm', code::ARG_TERM);
        self.letter(code::PARAM_REF, b'y');
    }

    // k(P{a: 2})
    fn call_with_p(&mut self) {
        self.call_with(b'k', code::ARG_CONDITION);
        self.p_with_two(b'a');
    }

    // k(!P{a: 2})
    fn call_with_negation(&mut self) {
        self.call_with(b'k', code::ARG_CONDITION);
        self.put(code::NOT, 0);
        self.p_with_two(b'a');
    }

    // `P{f: [?z]}`
    fn field_with_array(&mut self) {
        self.p(1);
        self.letter(code::TEXT, b'f');
        self.put(code::ARRAY, 1);
        self.letter(code::PARAM_REF, b'z');
    }

    // `P{f: 1 + ?z}`
    fn field_with_sum(&mut self) {
        self.p(1);
        self.letter(code::TEXT, b'f');
        self.put(code::ARITH, 0);
        self.put(code::INTEGER, 1);
        self.letter(code::PARAM_REF, b'z');
    }

    // `[?z] == 1`
    fn compared_array(&mut self) {
        self.put(code::COMPARISON, 0);
        self.put(code::OPERATOR, 4);
        self.put(code::ARRAY, 1);
        self.letter(code::PARAM_REF, b'z');
        self.put(code::INTEGER, 1);
    }

    // w(1h)
    fn call_with_hour(&mut self) {
        self.call_with(b'w', code::ARG_WITHIN);
        self.put(code::HOURS, 1);
    }

    // b(q)
    fn call_with_identifier(&mut self) {
        self.call_with(b'b', code::ARG_TERM);
        self.letter(code::VAR, b'q');
    }

    // e(1, 2)
    fn call_with_two(&mut self) {
        self.call(b'e', 2);
        self.integer_argument(1);
        self.integer_argument(2);
    }
}

// The largest tape: `[0, 0, ..] == 0` with n entries, and its length; the buffer is all zero and has room for 1,025.
pub fn long_condition(n: usize, tape: &mut [u8]) -> usize {
    if n < 4 || 1025 < n {
        return 0;
    }
    buffer::write_size(tape, 0, n);
    buffer::write(tape, 8, &[code::COMPARISON, code::OPERATOR, code::ARRAY]);
    if let Some(items) = tape.get_mut(11..8 + n) {
        items.fill(code::INTEGER);
    }
    // `==`, and the number of the array's items
    buffer::write_size(tape, 16 + n, 4);
    buffer::write_size(tape, 24 + n, n - 4);
    8 + 9 * n
}
