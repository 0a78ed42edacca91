use ev_app::Status;
use ev_types::Text;
use std::alloc::Global;
use std::io;

/// A row: what the program is run with, and how it has to end.
#[derive(Drop)]
pub(crate) struct Row {
    pub name: String,
    pub arguments: Vec<Text>,
    // the exit status, and the line and the kind of the fault, both 0 for another status
    exit: u8,
    line: u32,
    kind: u8,
}

impl Row {
    /// Whether the row is of a command that reads an input.
    pub(crate) fn reads_input(&self) -> bool {
        let soaks = matches!(self.arguments.first(), Some(word) if word.as_str() == "soak");
        !soaks && self.exit != Status::Usage.exit_status()
    }

    /// Whether the row has to end so.
    pub(crate) fn is_end(&self, status: Status) -> bool {
        let (line, kind) = match status {
            Status::BadScript { line, kind } => (line, kind),
            _ => (0, 0),
        };
        status.exit_status() == self.exit && line == self.line && kind == self.kind
    }
}

/// The row that a line of the list is: its name, its status (of an input that is no script `3:LINE:KIND`), and its
/// arguments, with blanks between.
pub(crate) fn read_row(alloc: Global, text: &str) -> io::Result<Row> {
    let mut parts = text.split(' ');
    let name = String::from_str(alloc, parts.next().unwrap_or(""))?;
    let mut end = parts.next().unwrap_or("").split(':');
    let exit = end.next().unwrap_or("").parse().unwrap_or(255);
    let line = end.next().unwrap_or("0").parse().unwrap_or(0);
    let kind = end.next().unwrap_or("0").parse().unwrap_or(255);
    let mut arguments = Vec::new(alloc);
    for part in parts {
        arguments.push(Text::new(alloc, part)?)?;
    }
    Ok(Row {
        name,
        arguments,
        exit,
        line,
        kind,
    })
}
