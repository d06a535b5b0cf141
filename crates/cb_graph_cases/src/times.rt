// How often more a case is done.

/// How many times more a graph is condensed, and a set chosen. What is measured is the difference of two numbers of times.
#[derive(Clone, Copy)]
pub(crate) struct Times {
    pub condense: u32,
    pub choose: u32,
}

impl Times {
    /// Takes a word (as `choose:100`), where it is one.
    pub fn read(&mut self, word: &str) -> Option<()> {
        let (name, times) = word.split_once(':')?;
        let times = times.parse::<u32>().ok()?;
        match name {
            "condense" => self.condense = times,
            "choose" => self.choose = times,
            _ => return None,
        }
        Some(())
    }
}
