//! What the constants are, in numbers. Definitions and contracts name the constants, so they would hold of
//! others too: these laws, whose functions do nothing, don't.
ghost use Rattle.std.specs.Prelude.{◌≡◌, ◌^◌, ◌*◌, pos};
ghost use Rattle.ffm_model.specs.declared.codes.TheConstants.{BAD_VALUE, BUDGET_WITHOUT_PERMISSION, DEPENDENCY_CYCLE, DUPLICATE_IRQ_SOURCE, DUPLICATE_PARTITION, DUPLICATE_SERVICE, DUPLICATE_SID, DUPLICATE_STATELESS_INDEX, FILE_TOO_LONG, JSON, MEMORY_TOO_LARGE, MISSING_ATTRIBUTE, REGION_OVERLAP, REGION_UNKNOWN, SCRIPT_SYNTAX, SELF_DEPENDENCY, TOO_MANY_CONNECTIONS, TOO_MANY_PARTITIONS, TOO_MANY_SIGNALS, TOO_MANY_STATELESS, TRACE_SYNTAX, UNKNOWN_ACTOR, UNKNOWN_DEPENDENCY, WRONG_TYPE};
ghost use Rattle.ffm_model.specs.declared.constants.TheConstants.{FRAMEWORK_1_0, FRAMEWORK_1_1, MAX_CLIENTS, MAX_CONNECTIONS, MAX_CONTEXTS, MAX_ENTRIES, MAX_FILE_BYTES, MAX_IMAGE_BYTES, MAX_PARTITIONS, MAX_REGION_BYTES, MAX_RESTARTS, MAX_SCRIPT_LINES, MAX_SIGNALS, MAX_STATELESS, MIN_FUNCTION_STACK, NON_SECURE_RAM_BASE, PSA_BLOCK, PSA_DOORBELL, PSA_ERROR_COMMUNICATION_FAILURE, PSA_ERROR_CONNECTION_BUSY, PSA_ERROR_CONNECTION_REFUSED, PSA_ERROR_DOES_NOT_EXIST, PSA_ERROR_PROGRAMMER_ERROR, PSA_FRAMEWORK_VERSION, PSA_IPC_CALL, PSA_IPC_CONNECT, PSA_IPC_DISCONNECT, PSA_MAX_IOVEC, PSA_NULL_HANDLE, PSA_POLL, PSA_SUCCESS, PSA_VERSION_NONE, PSA_WAIT_ANY, RAM_BASE, STATELESS_BASE};
ghost use Rattle.ffm_model.specs.Signed.{minus};

/// The constants of `psa/client.h`, `psa/service.h` and `psa/error.h` have the values of these headers.
pub fn values_of_the_headers()
    ensures framework_version { PSA_FRAMEWORK_VERSION ≡ 0x0101 }
    ensures framework_1_0 { FRAMEWORK_1_0 ≡ 0x0100 }
    ensures framework_1_1 { FRAMEWORK_1_1 ≡ 0x0101 }
    ensures version_none { PSA_VERSION_NONE ≡ 0 }
    ensures null_handle { PSA_NULL_HANDLE ≡ pos 0 }
    ensures max_iovec { PSA_MAX_IOVEC ≡ 4 }
    ensures call { PSA_IPC_CALL ≡ pos 0 }
    ensures connect { PSA_IPC_CONNECT ≡ minus 1 }
    ensures disconnect { PSA_IPC_DISCONNECT ≡ minus 2 }
    ensures success { PSA_SUCCESS ≡ pos 0 }
    ensures programmer_error { PSA_ERROR_PROGRAMMER_ERROR ≡ minus 129 }
    ensures refused { PSA_ERROR_CONNECTION_REFUSED ≡ minus 130 }
    ensures busy { PSA_ERROR_CONNECTION_BUSY ≡ minus 131 }
    ensures does_not_exist { PSA_ERROR_DOES_NOT_EXIST ≡ minus 140 }
    ensures communication_failure { PSA_ERROR_COMMUNICATION_FAILURE ≡ minus 145 }
    ensures wait_any { PSA_WAIT_ANY ≡ 0xffff_ffff }
    ensures block { PSA_BLOCK ≡ 0x8000_0000 }
    ensures poll { PSA_POLL ≡ 0 }
    ensures doorbell { PSA_DOORBELL ≡ 8 }
{}

/// The limits and the addresses are those of this profile: 256 connections and 16 MiB among them.
pub fn values_of_the_limits()
    ensures actors { (MAX_PARTITIONS ≡ 32) × (MAX_CLIENTS ≡ 16) }
    ensures signals { MAX_SIGNALS ≡ 28 }
    ensures connections { MAX_CONNECTIONS ≡ 256 }
    ensures stateless { (STATELESS_BASE ≡ 0x4000_0000) × (MAX_STATELESS ≡ 32) }
    ensures addresses { (RAM_BASE ≡ 0x3000_0000) × (NON_SECURE_RAM_BASE ≡ 0x2000_0000) }
    ensures memory { (MAX_REGION_BYTES ≡ 2 ^ 20) × (MAX_IMAGE_BYTES ≡ 16 * 2 ^ 20) }
    ensures files { (MAX_FILE_BYTES ≡ 2 ^ 20) × (MAX_SCRIPT_LINES ≡ 4096) }
    ensures scripts { MAX_CONTEXTS ≡ 8 }
    ensures functions { MIN_FUNCTION_STACK ≡ 48 }
    ensures entries { MAX_ENTRIES ≡ 262144 }
    ensures restarts { MAX_RESTARTS ≡ 15 }
{}

/// Each refusal has its code.
pub fn values_of_the_codes()
    ensures values { (JSON ≡ 1) × (MISSING_ATTRIBUTE ≡ 2) × (WRONG_TYPE ≡ 3) × (BAD_VALUE ≡ 4) }
    ensures names { (DUPLICATE_PARTITION ≡ 5) × (DUPLICATE_SERVICE ≡ 6)
        × (DUPLICATE_SID ≡ 7) × (DUPLICATE_IRQ_SOURCE ≡ 17) }
    ensures dependencies { (UNKNOWN_DEPENDENCY ≡ 8)
        × (SELF_DEPENDENCY ≡ 9) × (DEPENDENCY_CYCLE ≡ 10) }
    ensures counts { (TOO_MANY_SIGNALS ≡ 11)
        × (TOO_MANY_PARTITIONS ≡ 14) × (TOO_MANY_CONNECTIONS ≡ 15) }
    ensures budgets { BUDGET_WITHOUT_PERMISSION ≡ 16 }
    ensures stateless { (DUPLICATE_STATELESS_INDEX ≡ 21) × (TOO_MANY_STATELESS ≡ 22) }
    ensures regions { (REGION_UNKNOWN ≡ 12) × (REGION_OVERLAP ≡ 13) × (MEMORY_TOO_LARGE ≡ 18) }
    ensures scenarios { (SCRIPT_SYNTAX ≡ 19) × (UNKNOWN_ACTOR ≡ 20) }
    ensures files { (FILE_TOO_LONG ≡ 23) × (TRACE_SYNTAX ≡ 24) }
{}
