/// The number of a module. Modules are numbered from 0, in the order in which they were loaded.
#[derive(Clone, Copy, PartialEq, Eq, Debug)]
pub struct ModuleNumber(pub u64);

/// The number of an instance. Instances are numbered from 0, in the order in which they were linked.
#[derive(Clone, Copy, PartialEq, Eq, Debug)]
pub struct InstanceNumber(pub u64);
