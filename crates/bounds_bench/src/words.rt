/// The call whose work is counted. With `Neither` all is made that a call needs, and nothing is called.
#[derive(Clone, Copy, Debug, PartialEq, Eq)]
pub enum Call {
    Propagate,
    Ascend,
    Neither,
}

/// What is measured: a call, on the model of so many rows and columns that is made of the sample model of a number. Where it is
/// deep, half of the columns are fixed.
#[derive(Clone, Copy, Debug)]
pub struct Job {
    pub call: Call,
    pub number: u64,
    pub rows: u32,
    pub columns: u32,
    pub is_deep: bool,
}

/// The job of five words: a call, a number, rows, columns, and `root` or `deep`.
pub fn job_of(words: &[String]) -> Option<Job> {
    let [call, number, rows, columns, place] = words else {
        return None;
    };
    Some(Job {
        call: call_of(call.as_str())?,
        number: number.as_str().parse::<u64>().ok()?,
        rows: rows.as_str().parse::<u32>().ok()?,
        columns: columns.as_str().parse::<u32>().ok()?,
        is_deep: place.as_str() == "deep",
    })
}

fn call_of(word: &str) -> Option<Call> {
    match word {
        "propagate" => Some(Call::Propagate),
        "ascend" => Some(Call::Ascend),
        "neither" => Some(Call::Neither),
        _ => None,
    }
}
