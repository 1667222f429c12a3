// What is answered to words and bytes. Behind the word `explore` stand words of that program.
use crate::devices::Devices;
use re_io::{FailAt, MemSink, MemSource, SureSink, SureSource};
use std::alloc::{AllocError, Global};

// The exit code of a run, and the text that it wrote.
#[derive(Drop)]
pub(crate) struct Answered {
    pub(crate) code: u8,
    pub(crate) text: Vec<u8>,
}

fn words_of(alloc: Global, line: &str) -> Result<Vec<String>, AllocError> {
    let mut words = Vec::new(alloc);
    for word in line.split_whitespace() {
        words.push(String::from_str(alloc, word)?)?;
    }
    Ok(words)
}

// The words behind `explore`.
fn explore_words(words: &[String]) -> Option<&[String]> {
    match words {
        [first, others @ ..] if first.as_str() == "explore" => Some(others),
        _ => None,
    }
}

fn sure_code(alloc: Global, words: &[String], source: &mut SureSource, sink: &mut SureSink) -> u8 {
    re_cli::run_sure(alloc, words, source, sink).code()
}

fn sure_explore_code(
    alloc: Global,
    words: &[String],
    source: &mut SureSource,
    sink: &mut SureSink,
) -> u8 {
    re_explore::run_sure(alloc, words, source, sink).code()
}

fn sure_answer(
    alloc: Global,
    words: &[String],
    input: Vec<u8>,
    piece: usize,
) -> Result<Answered, AllocError> {
    let mut source = SureSource::new(input, piece.max(1));
    let mut sink = SureSink::new(alloc);
    let code = match explore_words(words) {
        Some(words) => sure_explore_code(alloc, words, &mut source, &mut sink),
        None => sure_code(alloc, words, &mut source, &mut sink),
    };
    let text = Vec::from_slice(alloc, sink.written())?;
    Ok(Answered { code, text })
}

fn failing_source(
    alloc: Global,
    input: Vec<u8>,
    devices: &Devices,
) -> Result<MemSource, AllocError> {
    let failing = vec![in alloc; devices.read]?;
    Ok(MemSource::new(input, devices.piece.max(1), failing))
}

fn failing_sink(alloc: Global, devices: &Devices) -> Result<MemSink, AllocError> {
    let failing = vec![in alloc;
        FailAt {
            call: devices.put,
            taken: devices.taken
        },
    ]?;
    Ok(MemSink::new(alloc, failing))
}

fn code_of(alloc: Global, words: &[String], source: &mut MemSource, sink: &mut MemSink) -> u8 {
    re_cli::run(alloc, words, source, sink).code()
}

fn explore_code_of(
    alloc: Global,
    words: &[String],
    source: &mut MemSource,
    sink: &mut MemSink,
) -> u8 {
    re_explore::run(alloc, words, source, sink).code()
}

fn failing_answer(
    alloc: Global,
    words: &[String],
    mut source: MemSource,
    mut sink: MemSink,
) -> Result<Answered, AllocError> {
    let code = match explore_words(words) {
        Some(words) => explore_code_of(alloc, words, &mut source, &mut sink),
        None => code_of(alloc, words, &mut source, &mut sink),
    };
    let text = Vec::from_slice(alloc, sink.written())?;
    Ok(Answered { code, text })
}

// The answer to these words.
pub(crate) fn answer(
    alloc: Global,
    line: &str,
    input: &[u8],
    devices: &Devices,
) -> Result<Answered, AllocError> {
    let words = words_of(alloc, line)?;
    let input = Vec::from_slice(alloc, input)?;
    if devices.read == 0 && devices.put == 0 {
        return sure_answer(alloc, &words, input, devices.piece);
    }
    let source = failing_source(alloc, input, devices)?;
    failing_answer(alloc, &words, source, failing_sink(alloc, devices)?)
}

// The answer to the words; behind ` | ` are words that read the text which those before wrote.
pub(crate) fn answer_through(
    alloc: Global,
    line: &str,
    input: &[u8],
    devices: &Devices,
) -> Result<Answered, AllocError> {
    let mut last = Answered {
        code: 0,
        text: Vec::from_slice(alloc, input)?,
    };
    for words in line.split(" | ") {
        last = answer(alloc, words, last.text.as_slice(), devices)?;
    }
    Ok(last)
}
