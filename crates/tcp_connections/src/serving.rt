//! What lets connections in and serves them.
ghost use Rattle.std.specs.Prelude.{ℕ, Option, IfSome};

/// Lets connections in, and serves them. A connection is a value that each call takes, and gives on to the next.
pub trait Serving {
    /// A connection that came.
    type Came: Send + Drop;

    /// A connection that was let in.
    type Work;

    /// A connection whose program runs.
    type Alive: Send;

    /// Evidence that a connection is over: only its end makes one.
    type Over: Send + Drop;

    /// Whether what was let in is the connection that came.
    ghost is_its: { Self → Self.Came → Self.Work → Type 0 };

    /// How many may be alive at once.
    ghost most: { ℕ };

    /// How many are let in at most, if there is such a number.
    ghost count: { Option ℕ };

    /// Lets a connection in. `None` if it was refused, and is closed.
    fn admit(&self, came: Self::Came) -> Option<Self::Work>
        ensures its { IfSome result (is_its self.now came) };

    /// Serves a connection up to the start of its program.
    ///
    /// # Errors
    /// The connection is over.
    fn begin(&self, work: Self::Work) -> Result<Self::Alive, Self::Over>;

    /// Serves a connection whose program runs to its end.
    fn finish(&self, alive: Self::Alive) -> Self::Over;

    /// Whether a connection that is over was retired: its place is never free again.
    fn is_retired(&self, over: &Self::Over) -> bool;
}
