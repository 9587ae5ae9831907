// A case in memory with one of its fields changed, whatever that makes of it; docs/FRAMES.md numbers the
// fields. Numbers and no enum: a frame may have any, and one that no field has changes nothing.
use cases::case::{Ask, Case, Instruction, Location, Program, Register, Run, Step, Thread};
use cases::sizes::{CODE, LOCATIONS, STEPS, THREADS};

// Where each part's fields begin; an instruction and a step have four each.
const FROM_FIRSTS: usize = 3;

const FROM_COUNTS: usize = FROM_FIRSTS + LOCATIONS;

const FROM_CODE: usize = FROM_COUNTS + THREADS;

const FROM_ASK: usize = FROM_CODE + 4 * CODE;

const FROM_RUN: usize = FROM_ASK + ALL_OF_ASK;

// The version, then the number of lines, then each location's line.
const FROM_VERSION: usize = FROM_RUN + 1 + 4 * STEPS;

const FROM_LINES: usize = FROM_VERSION + 1;

// Of the fields of what is asked: where the words begin, and the passed counts, and how many there are.
const FROM_WORDS: usize = LOCATIONS;

const FROM_PASSED: usize = 2 * LOCATIONS;

const ALL_OF_ASK: usize = FROM_PASSED + THREADS;

// One byte of a word: `to_le_bytes` would make four.
fn low(value: u32) -> u8 {
    (value % 256) as u8
}

fn in_program(p: &mut Program, field: usize, value: u32) {
    match field {
        1 => p.threads = low(value),
        2 => p.locations = low(value),
        FROM_FIRSTS..FROM_COUNTS => p.first[field - FROM_FIRSTS] = value,
        FROM_COUNTS..FROM_CODE => p.counts[field - FROM_COUNTS] = low(value),
        _ => {}
    }
}

// The number of lines, then each location's line.
fn in_lines(p: &mut Program, field: usize, value: u32) {
    match field {
        0 => p.lines = low(value),
        1..=LOCATIONS => p.line[field - 1] = low(value),
        _ => {}
    }
}

fn in_instruction(x: &mut Instruction, part: usize, value: u32) {
    match part {
        0 => x.operation = low(value),
        1 => x.location = Location(low(value)),
        2 => x.register = Register(low(value)),
        _ => x.word = value,
    }
}

// Each location's flag, then its word, then each thread's passed count.
fn in_ask(a: &mut Ask, field: usize, value: u32) {
    match field {
        ..FROM_WORDS => a.wanted[field] = value != 0,
        FROM_WORDS..FROM_PASSED => a.want[field - FROM_WORDS] = value,
        FROM_PASSED..ALL_OF_ASK => a.passed[field - FROM_PASSED] = low(value),
        _ => {}
    }
}

fn in_step(k: &mut Step, part: usize, value: u32) {
    match part {
        0 => k.thread = Thread(low(value)),
        1 => k.code = low(value),
        2 => k.position = low(value),
        _ => k.location = Location(low(value)),
    }
}

// The number of steps, then each step's four fields.
fn in_run(r: &mut Run, field: usize, value: u32) {
    if field == 0 {
        r.count = (value % 65536) as u16;
    } else if field <= 4 * STEPS {
        in_step(&mut r.steps[(field - 1) / 4], (field - 1) % 4, value);
    }
}

// By value: the case that was read stays what it is.
pub(crate) fn changed(mut c: Case, field: usize, value: u32) -> Case {
    match field {
        0..FROM_CODE => in_program(&mut c.program, field, value),
        FROM_CODE..FROM_ASK => {
            let k = field - FROM_CODE;
            in_instruction(&mut c.program.code[k / 4], k % 4, value);
        }
        FROM_ASK..FROM_RUN => in_ask(&mut c.ask, field - FROM_ASK, value),
        FROM_RUN..FROM_VERSION => in_run(&mut c.run, field - FROM_RUN, value),
        FROM_VERSION => c.version = (value % 65536) as u16,
        _ => in_lines(&mut c.program, field - FROM_LINES, value),
    }
    c
}
