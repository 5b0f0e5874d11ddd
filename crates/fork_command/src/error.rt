use clap::Error;

/// Why the words are not a command.
#[derive(Debug, Drop)]
pub enum CommandError<'a> {
    /// Help or the version was asked for. Print its text on standard output, with status 0.
    Help(Error),
    /// A usage error. Print its text on standard error, with status 2.
    Usage(Error),
    /// The first word given as TENANT=LIMIT, or as TENANT, that is not one. Status 2.
    BadTenant(&'a str),
    /// Memory ran out.
    Memory,
}
