// The rows as a text. A line's first byte says what the rest of it is:
//
//     #TEXT    a comment
//     /PIECE READ PUT TAKEN   for the rows below: so many bytes are given at once, and the calls of these numbers fail, if any, the write
//              behind so many bytes
//     <TEXT    a line of the input
//     -TEXT    the end of the input, without a line feed
//     \TEXT    a part of the input, in which `\n`, `\r` and `\t` stand for a line feed, a carriage return and a tab
//     *N TEXT  a line of the input, N times
//     :NAME    the input so far gets a name, and isn't an input
//     @N NAME  the text of that name, N times, as part of the input
//     ^N path  the lines of a path of N nodes behind its first one, as part of the input of `run`
//     ^N levels   those of a tree of N nodes that is grown level by level, and of all messages over its edges
//     $WORDS   what is run on the input, `explore` before words of that program; behind ` | ` are words that read the text which those
//              before wrote
//     >TEXT    a line of the text that is to be written
//     &NAME    the text of that name, as part of the text that is to be written
//     =CODE    the exit code: the row ends, and the text is to be these lines
//     ~CODE N  the exit code: the row ends, and the text is to begin with these lines and to have N
//     ~CODE N BYTES   and to have so many bytes
//     !reads   the row ends: each read fails in turn
//     !writes  the row ends: each write fails in turn, behind each number of bytes
//     !fronts  the row ends: each front of the input ends too early
//     !stars   the row ends: a star at each place of the input is a fault
//     !damage N   the row ends: the input is damaged at places that are so many apart
use crate::answers::{Answered, answer_through};
use crate::damage::{each_damage, each_front, each_star};
use crate::devices::{Devices, SURE};
use crate::failing::{each_read, each_write};
use crate::growing::{add_levels, add_path};
use std::alloc::{AllocError, Global};
use std::mem;

#[derive(Drop)]
struct Named {
    name: String,
    text: Vec<u8>,
}

#[derive(Drop)]
pub(crate) struct Script {
    alloc: Global,
    named: Vec<Named>,
    devices: Devices,
    line: String,
    input: Vec<u8>,
    wanted: Vec<u8>,
    right: usize,
}

fn number_of(text: &str) -> usize {
    text.parse::<usize>().unwrap_or(0)
}

// A number, and what stands behind the blank.
fn numbered(text: &str) -> (usize, &str) {
    match text.split_once(' ') {
        Some((number, rest)) => (number_of(number), rest),
        None => (number_of(text), ""),
    }
}

fn devices_of(text: &str) -> Devices {
    let (piece, rest) = numbered(text);
    let (read, rest) = numbered(rest);
    let (put, taken) = numbered(rest);
    Devices {
        piece,
        read: u32::try_from(read).unwrap_or(0),
        put: u32::try_from(put).unwrap_or(0),
        taken: number_of(taken),
    }
}

fn add_line(text: &mut Vec<u8>, line: &str) -> Result<(), AllocError> {
    text.extend_from_slice(line.as_bytes())?;
    text.push(b'\n')?;
    Ok(())
}

fn add_lines(text: &mut Vec<u8>, line: &str, times: usize) -> Result<(), AllocError> {
    for _ in 0..times {
        add_line(text, line)?;
    }
    Ok(())
}

// Adds the byte for which a letter behind a `\` stands, and what follows it.
fn add_sign(text: &mut Vec<u8>, part: &str) -> Result<(), AllocError> {
    let sign = match part.as_bytes().first() {
        Some(b'n') => b'\n',
        Some(b'r') => b'\r',
        _ => b'\t',
    };
    text.push(sign)?;
    text.extend_from_slice(part.get(1..).unwrap_or("").as_bytes())?;
    Ok(())
}

fn add_spelled(text: &mut Vec<u8>, spelled: &str) -> Result<(), AllocError> {
    for (number, part) in spelled.split('\\').enumerate() {
        if number == 0 {
            text.extend_from_slice(part.as_bytes())?;
        } else {
            add_sign(text, part)?;
        }
    }
    Ok(())
}

fn count_lines(text: &[u8]) -> usize {
    text.iter().filter(|byte| **byte == b'\n').count()
}

fn text_named<'a>(named: &'a [Named], name: &str) -> &'a [u8] {
    for one in named {
        if one.name.as_str() == name {
            return one.text.as_slice();
        }
    }
    &[]
}

impl Script {
    pub(crate) fn new(alloc: Global) -> Script {
        Script {
            alloc,
            named: Vec::new(alloc),
            devices: SURE,
            line: String::new(alloc),
            input: Vec::new(alloc),
            wanted: Vec::new(alloc),
            right: 0,
        }
    }

    // How many rows were as they should be.
    pub(crate) fn right(&self) -> usize {
        self.right
    }

    fn name_input(&mut self, name: &str) -> Result<(), AllocError> {
        let name = String::from_str(self.alloc, name)?;
        let text = mem::replace(&mut self.input, Vec::new(self.alloc));
        self.named.push(Named { name, text })?;
        Ok(())
    }

    fn repeat_line(&mut self, rest: &str) -> Result<(), AllocError> {
        let (times, line) = numbered(rest);
        add_lines(&mut self.input, line, times)
    }

    fn add_named(&mut self, rest: &str) -> Result<(), AllocError> {
        let (times, name) = numbered(rest);
        let text = text_named(self.named.as_slice(), name);
        for _ in 0..times {
            self.input.extend_from_slice(text)?;
        }
        Ok(())
    }

    fn want_named(&mut self, name: &str) -> Result<(), AllocError> {
        let text = text_named(self.named.as_slice(), name);
        self.wanted.extend_from_slice(text)?;
        Ok(())
    }

    fn add_tree(&mut self, rest: &str) -> Result<(), AllocError> {
        let (nodes, kind) = numbered(rest);
        let nodes = u32::try_from(nodes).unwrap_or(0);
        match kind {
            "path" => add_path(self.alloc, &mut self.input, nodes),
            _ => add_levels(self.alloc, &mut self.input, nodes),
        }
    }

    fn answer(&self) -> Result<Answered, AllocError> {
        let input = self.input.as_slice();
        answer_through(self.alloc, self.line.as_str(), input, &self.devices)
    }

    // Whether what is said of the row holds where devices fail or the input is damaged.
    fn holds(&self, said: &str) -> Result<bool, AllocError> {
        let line = self.line.as_str();
        let input = self.input.as_slice();
        match said {
            "reads" => each_read(self.alloc, line, input),
            "writes" => each_write(self.alloc, line, input),
            "fronts" => each_front(self.alloc, line, input),
            "stars" => each_star(self.alloc, line, input),
            _ => each_damage(self.alloc, line, input, number_of(numbered(said).1)),
        }
    }

    // Ends the row, and counts it where the answer is as it should be.
    fn end(&mut self, is_right: bool) -> bool {
        self.input = Vec::new(self.alloc);
        self.wanted = Vec::new(self.alloc);
        if is_right {
            self.right = self.right.saturating_add(1);
        }
        is_right
    }

    fn is_whole(&self, code: usize) -> Result<bool, AllocError> {
        let found = self.answer()?;
        Ok(usize::from(found.code) == code && found.text.as_slice() == self.wanted.as_slice())
    }

    fn end_whole(&mut self, code: &str) -> Result<bool, AllocError> {
        let is_right = self.is_whole(number_of(code))?;
        Ok(self.end(is_right))
    }

    fn end_begun(&mut self, rest: &str) -> Result<bool, AllocError> {
        let (code, rest) = numbered(rest);
        let (lines, bytes) = numbered(rest);
        let is_right = self.begins(code, lines, bytes)?;
        Ok(self.end(is_right))
    }

    fn begins(&self, code: usize, lines: usize, bytes: &str) -> Result<bool, AllocError> {
        let found = self.answer()?;
        let text = found.text.as_slice();
        Ok(
            usize::from(found.code) == code
                && count_lines(text) == lines
                && (bytes.is_empty() || number_of(bytes) == text.len())
                && text.starts_with(self.wanted.as_slice()),
        )
    }

    fn end_faults(&mut self, said: &str) -> Result<bool, AllocError> {
        let is_right = self.holds(said)?;
        Ok(self.end(is_right))
    }

    // Takes a line, and answers whether it isn't the end of a row that is not as it should be, and is one of the lines above.
    pub(crate) fn take(&mut self, line: &str) -> Result<bool, AllocError> {
        let rest = line.get(1..).unwrap_or("");
        match line.as_bytes().first() {
            Some(b'/') => self.devices = devices_of(rest),
            Some(b'<') => add_line(&mut self.input, rest)?,
            Some(b'-') => self.input.extend_from_slice(rest.as_bytes())?,
            Some(b'\\') => add_spelled(&mut self.input, rest)?,
            Some(b'*') => self.repeat_line(rest)?,
            Some(b':') => self.name_input(rest)?,
            Some(b'@') => self.add_named(rest)?,
            Some(b'^') => self.add_tree(rest)?,
            Some(b'$') => self.line = String::from_str(self.alloc, rest)?,
            Some(b'>') => add_line(&mut self.wanted, rest)?,
            Some(b'&') => self.want_named(rest)?,
            Some(b'=') => return self.end_whole(rest),
            Some(b'~') => return self.end_begun(rest),
            Some(b'!') => return self.end_faults(rest),
            Some(b'#') | None => {}
            Some(_) => return Ok(false),
        }
        Ok(true)
    }
}
