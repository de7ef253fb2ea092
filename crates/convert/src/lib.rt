// One kernel file, two loaders: bracket lines of file kernels, in kilometres, become kernels in metres as
// the native loader makes them, as the source's does, or strictly, where both agree. The exported call,
// `convert`, has no `requires`.
#![tactic(auto)]

pub mod convert;
pub mod file;
pub mod lines;
