//! Worked rows of the definitions.

ghost use Rattle.std.specs.Prelude.{List, ℕ};
ghost use Rattle.core_types.specs.declared.module.Module.{Module};
ghost use Rattle.isolation.specs.Determinism.{HadMemory, HostsAreFunctions};
ghost use Rattle.isolation.specs.Hosts.{AnswersBy};
ghost use Rattle.isolation.specs.Reach.{Host, IsReached, Memory, reach};
ghost use Rattle.isolation.specs.Regions.{AreApart, IsThere, IsClosed, marked};
ghost use Rattle.isolation.specs.Rows.{FromFirst, FromSecond, always_traps, answers_anything, first_with_table, is_one, is_zero, of_two, region_of, type_of_none, with_host, with_shared_memory, with_table, without_memory};
ghost use Rattle.meaning.specs.embedding.Commands.{Ended, Limit, Malformed, Refused};
ghost use Rattle.meaning.specs.embedding.Machine.{Embedding, IsDecoded, Loads};
ghost use Rattle.meaning.specs.execution.Runs.{OutOfMemory};

/// Worked row of the definitions: a store with two instances, each with its own function and memory. The region of the first is
/// closed, and apart from that of the second. It is not closed without the memory. From the first instance its own memory can be
/// reached, and the other cannot.
pub fn two_instances_are_apart()
    ensures closed { IsClosed (marked (region_of is_zero)) of_two }
    ensures there { IsThere (marked (region_of is_zero)) of_two }
    ensures apart { AreApart (marked (region_of is_zero)) (marked (region_of is_one)) }
    ensures needed { IsClosed (marked (without_memory is_zero)) of_two → ⊥ }
    ensures own { IsReached of_two FromFirst (Memory 0) }
    ensures other { IsReached of_two FromFirst (Memory 1) → ⊥ }
{}

/// Worked row of the definitions: the first instance has a table with a reference to the function of the second. Its region is
/// not closed, it can reach the memory of the second, and the two are not apart.
pub fn a_table_entry_leads_out()
    ensures open { IsClosed (marked first_with_table) with_table → ⊥ }
    ensures reached { IsReached with_table FromFirst (Memory 1) }
    ensures shared { AreApart (reach with_table FromFirst) (reach with_table FromSecond) → ⊥ }
{}

/// Worked row of the definitions: two instances with one memory are not apart.
pub fn a_memory_of_two_instances_is_shared()
    ensures { AreApart (reach with_shared_memory FromFirst)
        (reach with_shared_memory FromSecond) → ⊥ }
{}

/// Worked row of the definitions: two instances that import one host function can both reach its object, and are apart.
pub fn a_host_function_of_two_instances_is_shared()
    ensures first { IsReached with_host FromFirst (Host 0) }
    ensures second { IsReached with_host FromSecond (Host 0) }
    ensures apart { AreApart (reach with_host FromFirst) (reach with_host FromSecond) }
{}

/// Worked row of the definitions: a host function that can give any answer is not a function of its call. One that always traps
/// is.
pub fn a_host_function_may_answer_in_one_way()
    ensures anything { HostsAreFunctions type_of_none (AnswersBy answers_anything) → ⊥ }
    ensures trap { HostsAreFunctions type_of_none (AnswersBy always_traps) }
{}

/// Worked row of the definitions: bytes that encode no module within the limits may be refused as malformed, and as past a
/// limit. The reply that a run ended because memory ran out is a reply that memory ran out.
pub fn a_refusal_of_bytes_is_free<H>()
    ensures malformed { (at : Embedding H) (bytes : List ℕ) → ((m : Module) → IsDecoded bytes m → ⊥)
        → Loads at bytes (Refused Malformed) at }
    ensures limit { (at : Embedding H) (bytes : List ℕ) → ((m : Module) → IsDecoded bytes m → ⊥)
        → Loads at bytes (Refused Limit) at }
    ensures memory { HadMemory (Ended OutOfMemory) → ⊥ }
{}
