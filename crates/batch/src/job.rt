// What a frame of the machine asks for.

#[derive(Clone, Copy, PartialEq, Eq)]
pub enum Job {
    JudgeBytes,
    JudgeCase,
    Step,
    Question,
    Start,
}

// By the frame's number; any other asks for a step.
impl From<u32> for Job {
    fn from(number: u32) -> Job {
        match number {
            0 => Job::JudgeBytes,
            1 => Job::JudgeCase,
            3 => Job::Question,
            4 => Job::Start,
            _ => Job::Step,
        }
    }
}
