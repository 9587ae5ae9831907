// A step of the run that is shown, as a kind 6 record. cases' `put_record` has the same eight bytes: it takes any record,
// puts it at a buffer's front, and is not open to other crates.
ghost use Rattle.std.specs.Prelude.{◌≡◌, ◌+◌, ◌≤◌, length};
ghost use Rattle.std.proofs.lemmas.List.Edits.{sets};
ghost use Rattle.cases.specs.declared.record.Record.TheVariants.{Take};
ghost use Rattle.cases.specs.Record.{record_bytes};
ghost use Rattle.cases.specs.Sizes.{step_size};

use cases::case::Step;
use cases::sizes::STEP_SIZE;

#[tactic(auto, using(crate::proofs::shown::StoreLaws::record_over))]
pub(crate) fn put_step(out: &mut [u8], at: usize, k: Step)
    requires { at + step_size ≤ length out.old }
    ensures { out.new ≡ sets out.old at (record_bytes (Take k)) }
{
    // a payload of 4 bytes and kind 6, two bytes each, then the payload
    let record = [4, 0, 6, 0, k.thread.0, k.code, k.position, k.location.0];
    out[at..at + STEP_SIZE].copy_from_slice(&record);
}
