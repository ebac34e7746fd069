/// What lawful words ask for. The texts are those of the words.
#[derive(Clone, Copy, Debug, PartialEq, Eq)]
pub enum Command<'w> {
    /// `run PIPE` and `run PIPE DATA`: to run the pipeline in the file `pipe`, over the file `data` where one is named.
    Run {
        pipe: &'w str,
        data: Option<&'w str>,
        /// From 1 to 64.
        workers: u32,
        /// From 1 to 64.
        level: u32,
        audit: bool,
    },
    /// `check PIPE`: to say whether the pipeline is lawful.
    Check {
        pipe: &'w str,
    },
}
