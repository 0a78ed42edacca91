ghost use Rattle.std.specs.Prelude.{◌≡◌, ◌<◌};
ghost use Rattle.ev_io.specs.declared.limits.TheConstants.{MAX_INPUT_BYTES, MAX_LINE_BYTES, MAX_LINES, MAX_PIECE_BYTES};
ghost use Rattle.ev_types.specs.declared.limits.TheConstants.{ITEM_LIMIT, LINE_LIMIT, MAX_DECIMAL_DIGITS, MAX_NAME_LENGTH, MAX_WEIGHT_SUM, MAX_WORKERS, ROW_LIMIT};
ghost use Rattle.ev_tree.specs.declared.limits.TheConstants.{MAX_FRACTION_DIGITS, MAX_NAME_BYTES, MAX_PORT, MAX_SECONDS, MAX_SECONDS_DIGITS, MAX_U32_DIGITS};
ghost use Rattle.ev_cluster_json.specs.declared.groups.TheConstants.{MAX_PRIORITY};
ghost use Rattle.ev_cluster_json.specs.declared.parts.TheConstants.{EDS, LOGICAL_DNS, STATIC};
ghost use Rattle.ev_route_json.specs.declared.routes.TheConstants.{MAX_STATUS, MIN_STATUS};
ghost use Rattle.ev_script.specs.declared.limits.TheConstants.{MAX_NUMBER, MAX_PATH_LENGTH, MAX_WORKER};
ghost use Rattle.ev_soak.specs.declared.soaking.TheConstants.{MAX_SOAK};
ghost use Rattle.ev_dns.specs.declared.templates.TheConstants.{STRICT_DNS};
ghost use Rattle.ev_chain_lines.specs.declared.limits.TheConstants.{MAX_NUMBER as MAX_CONNECTION, MAX_PORT_NUMBER};
ghost use Rattle.ev_expand.specs.declared.expanding.TheConstants.{MOST_LINES};
ghost use Rattle.ev_model.specs.Operations.{batch_limit};

/// An input has at most 64 MiB in 200,000 lines of at most 4 MiB;
/// it is read in pieces of at most 64 KiB. It does nothing.
pub fn inputs_are_limited()
    ensures bytes { MAX_INPUT_BYTES ≡ 67108864 }
    ensures lines { MAX_LINES ≡ 200000 }
    ensures line { MAX_LINE_BYTES ≡ 4194304 }
    ensures piece { MAX_PIECE_BYTES ≡ 65536 }
{}

/// A script has at most 16 workers, and its lines' numbers and its responses' resources stay below 2^32
/// - 1. A worker that a line names is below 2^32, a connection or a pick below 2^64; a path has at most 8,192 bytes.
/// A worker's batch has at most 256 accepts and closes. It does nothing.
pub fn scripts_are_limited()
    ensures workers { MAX_WORKERS ≡ 16 }
    ensures last_line { LINE_LIMIT ≡ 4294967295 }
    ensures resources { ITEM_LIMIT ≡ 4294967295 }
    ensures worker { MAX_WORKER ≡ 4294967295 }
    ensures number { MAX_NUMBER ≡ 18446744073709551615 }
    ensures path { MAX_PATH_LENGTH ≡ 8192 }
    ensures batch { batch_limit ≡ 256 }
{}

/// A name has at most 512 bytes. An assignment has fewer than 2^32 - 1 rows, of priorities up to 128,
/// and weights sum to at most 2^32 - 1. A port is at most 65,535, a status of a direct response from 200 to 599.
/// Of cluster types, 0 is STATIC, 2 is LOGICAL_DNS and 3 is EDS. It does nothing.
pub fn resources_are_limited()
    ensures name { MAX_NAME_LENGTH ≡ 512 }
    ensures name_in_trees { MAX_NAME_BYTES ≡ 512 }
    ensures rows { ROW_LIMIT ≡ 4294967295 }
    ensures priority { MAX_PRIORITY ≡ 128 }
    ensures weights { MAX_WEIGHT_SUM ≡ 4294967295 }
    ensures port { MAX_PORT ≡ 65535 }
    ensures least_status { MIN_STATUS ≡ 200 }
    ensures greatest_status { MAX_STATUS ≡ 599 }
    ensures static_type { STATIC ≡ 0 }
    ensures last_type_with_hosts { LOGICAL_DNS ≡ 2 }
    ensures eds_type { EDS ≡ 3 }
{}

/// A number of 32 bits has at most 10 digits, one of 64 bits in a text at most 19;
/// a duration at most 12 digits of seconds and 9 after the point, and at most 315,576,000,000 seconds,
/// ten thousand years. It does nothing.
pub fn numbers_are_limited()
    ensures digits { MAX_U32_DIGITS ≡ 10 }
    ensures decimal_digits { MAX_DECIMAL_DIGITS ≡ 19 }
    ensures seconds_digits { MAX_SECONDS_DIGITS ≡ 12 }
    ensures fraction_digits { MAX_FRACTION_DIGITS ≡ 9 }
    ensures seconds { MAX_SECONDS ≡ 315576000000 }
{}

/// The script of a seed has at most 100,000 lines after its header.
/// A connection to a filter chain has a number below 2^64, and comes to a port of at most 65,535.
/// Of cluster types, 1 is STRICT_DNS. A command that makes a script of a script takes all lines
/// that an input may have. It does nothing.
pub fn commands_are_limited()
    ensures soak { MAX_SOAK ≡ 100000 }
    ensures connection { MAX_CONNECTION ≡ 18446744073709551615 }
    ensures chain_port { MAX_PORT_NUMBER ≡ 65535 }
    ensures strict_dns_type { STRICT_DNS ≡ 1 }
    ensures made_of { MAX_LINES < MOST_LINES }
{}
