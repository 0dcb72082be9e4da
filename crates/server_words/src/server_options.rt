//! The options of `tcpserver`: their letters, what its help says of them, and their numbers.
ghost use Rattle.std.specs.Prelude.{◌≡◌};
ghost use Rattle.server_words.specs.Limits.{limits_in};

use crate::{Options, WordFault};

/// The letters of `tcpserver`: one followed by `:` takes a value, one followed by `!` is not in this profile, which is
/// to say that the original program has it and this one refuses it.
pub const TCPSERVER_LETTERS: &str = "vQq1c:k:m:x:XB:l:N:hHpPsSw:ROodDt:b:r!u!g!U!";

/// The same letters where only the level is looked for, so that none is refused.
pub const HEARD_LETTERS: &str = "vQq1c:k:m:x:XB:l:N:hHpPsSw:ROodDt:b:ru:g:U";

/// The words of `tcpserver` and its options, a line each.
pub const OPTIONS: &str = "\
host        0 for all addresses of the machine, localhost, or an IPv4 address\n\
port        0 to 65535; 0 takes a free one\n\
prog        a path, or a name that is looked for along PATH\n\
-1          print the local port on standard output\n\
-B text     write text to each connection before the rules are asked\n\
-c n        serve n connections at once: 1 to 10000, else 40\n\
-D, -d      set TCP_NODELAY on connections, or don't (as without either)\n\
-H, -h      take no client's name from the host table, or do (as without either)\n\
-k n        end after n connections: 1 to 4294967295\n\
-l name     the server's own name, for TCPLOCALHOST\n\
-m n        serve n connections of one address at once: 1 to 10000\n\
-N path     read names of clients from this host table\n\
-p, -P      forget a client's name that the table doesn't confirm, or keep it (as without either)\n\
-q, -Q, -v  print nothing, errors (as without any), or all lines of the log\n\
-S, -s      pass the bytes of connections on, or hand connections over (as without either)\n\
-w names    pass the bytes through recordio, addcr, delcr, fixcrio: names with commas between\n\
-x path     follow the rules that tcprules compiled there\n\
-X          allow all while the rules file is missing\n\
-R, -O, -o, -t n, -b n  accepted, without effect\n\
-r, -u, -g, -U          refused\n";

/// What is told behind the line of a bad number.
pub const NUMBERS_HINT: &str =
    "tcpserver: hint: -c and -m take 1 to 10000, -k takes 1 to 4294967295\n";

/// How many connections a server lets in.
#[derive(Clone, Copy)]
pub struct ConnectionLimits {
    /// At most so many at once: the number of `-c`.
    pub connections: u64,
    /// At most so many at once from one address: the number of `-m`, else `connections`.
    pub per_address: u64,
    /// So many in all, and then the server ends: the number of `-k`. `None` where it goes on without end.
    pub count: Option<u32>,
}

impl ConnectionLimits {
    /// The limits without options.
    pub const DEFAULT: ConnectionLimits = ConnectionLimits {
        connections: 40,
        per_address: 40,
        count: None,
    };

    /// The limits that options ask for.
    ///
    /// # Errors
    /// `BadNumber` with the first of the letters `c`, `k` and `m`, in this order, whose value is no number in its
    /// range. No other fault is answered.
    pub(crate) fn of(options: &Options<'_>) -> Result<ConnectionLimits, WordFault>
        ensures { result ≡ limits_in options.now }
    {
        let default = ConnectionLimits::DEFAULT;
        let connections = options
            .number('c', 1, 10_000)?
            .unwrap_or(default.connections);
        let count = options.number('k', 1, 4_294_967_295)?;
        let per_address = options.number('m', 1, 10_000)?.unwrap_or(connections);
        Ok(ConnectionLimits {
            connections,
            per_address,
            count: count.map(|count| count as u32),
        })
    }
}
