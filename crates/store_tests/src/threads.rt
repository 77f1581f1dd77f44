/// Compiles only for a type whose values may be sent to another thread, and read from several.
pub fn crosses_threads<T: Send + Sync>() {}
