// What a command is handed.
use crate::calls::{Calls, StreamCalls};
use crate::trouble::Trouble;
use cb_io::{MemFolder, MemSink, MemSource, SureFolder};
use cb_plain::Numbers;
use std::alloc::Global;
use std::collections::BTreeMap;
use std::mem;

/// What the command of a case is handed: the files of the folder, the bytes of the input, what calls do, and the words.
#[derive(Drop)]
pub(crate) struct Setup {
    alloc: Global,
    files: BTreeMap<String, Vec<u8>>,
    input: Vec<u8>,
    calls: Calls,
    words: Vec<String>,
    tells_tally: bool,
}

impl Setup {
    /// A folder without files, an input without bytes, and no word. No call fails.
    pub fn new(alloc: Global) -> Self {
        Setup {
            alloc,
            files: BTreeMap::new(alloc),
            input: Vec::new(alloc),
            calls: Calls::new(alloc),
            words: Vec::new(alloc),
            tells_tally: false,
        }
    }

    /// Keeps the files and the input alone.
    pub fn begin_again(&mut self) {
        self.calls = Calls::new(self.alloc);
        self.words = Vec::new(self.alloc);
        self.tells_tally = false;
    }

    /// Has what the collections come to printed.
    pub fn tell_tally(&mut self) {
        self.tells_tally = true;
    }

    /// Whether what the collections come to is printed.
    pub fn tells_tally(&self) -> bool {
        self.tells_tally
    }

    /// Puts a file into the folder, in the place of one that is there.
    pub fn put(&mut self, path: &str, bytes: Vec<u8>) -> Result<(), Trouble> {
        let path = String::from_str(self.alloc, path)?;
        self.files.insert(path, bytes)?;
        Ok(())
    }

    /// Gives the input its bytes.
    pub fn set_input(&mut self, bytes: Vec<u8>) {
        self.input = bytes;
    }

    /// Does what a line says of the calls of an object.
    pub fn set_calls(&mut self, object: &str, rest: &str) -> Result<(), Trouble> {
        self.calls.set(object, rest)
    }

    /// Adds a word at the end.
    pub fn add_word(&mut self, word: &str) -> Result<(), Trouble> {
        self.words.push(String::from_str(self.alloc, word)?)?;
        Ok(())
    }

    /// Takes the words.
    pub fn take_words(&mut self) -> Vec<String> {
        mem::replace(&mut self.words, Vec::new(self.alloc))
    }

    /// The folder of the files, whose next calls fail as was said.
    pub fn take_folder(&mut self) -> Result<MemFolder, Trouble> {
        let files = folder_of(self.alloc, &self.files)?;
        let failing = mem::replace(&mut self.calls.folder, Numbers::new(self.alloc));
        Ok(MemFolder::new(files, failing))
    }

    /// The input.
    pub fn take_input(&mut self) -> Result<MemSource, Trouble> {
        let bytes = Vec::from_slice(self.alloc, self.input.as_slice())?;
        let calls = &mut self.calls.input;
        let most = calls.most.get();
        Ok(MemSource::new(bytes, most, calls.take_failing(self.alloc)))
    }

    /// An output that has taken nothing.
    pub fn take_out(&mut self) -> MemSink {
        sink_of(self.alloc, &mut self.calls.out)
    }

    /// An error output that has taken nothing.
    pub fn take_err(&mut self) -> MemSink {
        sink_of(self.alloc, &mut self.calls.err)
    }
}

/// A folder of files.
fn folder_of(alloc: Global, files: &BTreeMap<String, Vec<u8>>) -> Result<SureFolder, Trouble> {
    let mut folder = SureFolder::new(alloc);
    for (path, bytes) in files.iter() {
        folder.put(path.as_str(), Vec::from_slice(alloc, bytes.as_slice())?)?;
    }
    Ok(folder)
}

/// A sink whose calls do as was said.
fn sink_of(alloc: Global, calls: &mut StreamCalls) -> MemSink {
    let most = calls.most.get();
    MemSink::new(alloc, most, calls.take_failing(alloc))
}
