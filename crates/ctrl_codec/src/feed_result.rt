/// What a piece of a stream came to, in any format.
pub(crate) enum FeedResult<V, F> {
    /// All of it was taken, and no message is whole.
    More,
    /// A message is whole.
    Whole(V),
    /// Bytes were refused.
    Refused(F),
    /// Bytes were refused before.
    Failed,
}
