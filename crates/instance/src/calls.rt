// The calls that a program may import, each listed once.
ghost use Rattle.std.specs.Prelude.{◌≡◌, map, find, option_map};
ghost use Rattle.std.specs.List.{list_any};
ghost use Rattle.std.specs.Str.{bytes_eq};
ghost use Rattle.instance.specs.Calls.{calls, nosys_names, call_number, is_named, is_nosys, number_with_type, results_of};
ghost use Rattle.instance.specs.Rows.{call_of_row, origin_name};

use Origin::{Preview1, Wasix};
use wasm_ast::ValType::{I32, I64};
use wasm_ast::{FuncType, ValType, same_types};

/// A module of the calls.
#[derive(Clone, Copy)]
enum Origin {
    /// That of WASI preview 1.
    Preview1,
    /// That of the further calls.
    Wasix,
}

impl Origin {
    /// The module's name.
    fn name(self) -> &'static [u8]
        ensures { result.now ≡ origin_name self }
    {
        match self {
            Preview1 => b"wasi_snapshot_preview1",
            Wasix => b"wasix_32v1",
        }
    }
}

/// The number of the one call for all names that answer nosys.
const NOSYS: u16 = 8;

/// A call: the module and the name by which it is imported, its number, the types of its parameters, and whether it
/// gives an i32.
struct Row(Origin, &'static [u8], u16, &'static [ValType], bool);

/// The calls with their types.
static CALLS: [Row; 51] = [
    Row(Preview1, b"args_sizes_get", 10, &[I32, I32], true),
    Row(Preview1, b"args_get", 11, &[I32, I32], true),
    Row(Preview1, b"environ_sizes_get", 12, &[I32, I32], true),
    Row(Preview1, b"environ_get", 13, &[I32, I32], true),
    Row(Preview1, b"clock_time_get", 14, &[I32, I64, I32], true),
    Row(Preview1, b"fd_close", 15, &[I32], true),
    Row(Preview1, b"fd_read", 16, &[I32, I32, I32, I32], true),
    Row(Preview1, b"fd_write", 17, &[I32, I32, I32, I32], true),
    Row(Preview1, b"fd_pread", 18, &[I32, I32, I32, I64, I32], true),
    Row(Preview1, b"fd_pwrite", 19, &[I32, I32, I32, I64, I32], true),
    Row(Preview1, b"fd_seek", 20, &[I32, I64, I32, I32], true),
    Row(Preview1, b"fd_tell", 21, &[I32, I32], true),
    Row(Preview1, b"fd_fdstat_get", 22, &[I32, I32], true),
    Row(Preview1, b"fd_fdstat_set_flags", 23, &[I32, I32], true),
    Row(Preview1, b"fd_filestat_get", 24, &[I32, I32], true),
    Row(Preview1, b"fd_filestat_set_size", 25, &[I32, I64], true),
    Row(Preview1, b"fd_prestat_get", 26, &[I32, I32], true),
    Row(Preview1, b"fd_prestat_dir_name", 27, &[I32, I32, I32], true),
    Row(
        Preview1,
        b"fd_readdir",
        28,
        &[I32, I32, I32, I64, I32],
        true,
    ),
    Row(Preview1, b"fd_renumber", 29, &[I32, I32], true),
    Row(
        Preview1,
        b"path_open",
        30,
        &[I32, I32, I32, I32, I32, I64, I64, I32, I32],
        true,
    ),
    Row(
        Preview1,
        b"path_create_directory",
        31,
        &[I32, I32, I32],
        true,
    ),
    Row(Preview1, b"path_unlink_file", 32, &[I32, I32, I32], true),
    Row(
        Preview1,
        b"path_remove_directory",
        33,
        &[I32, I32, I32],
        true,
    ),
    Row(
        Preview1,
        b"path_rename",
        34,
        &[I32, I32, I32, I32, I32, I32],
        true,
    ),
    Row(
        Preview1,
        b"path_filestat_get",
        35,
        &[I32, I32, I32, I32, I32],
        true,
    ),
    Row(Preview1, b"poll_oneoff", 36, &[I32, I32, I32, I32], true),
    Row(Preview1, b"proc_exit", 37, &[I32], false),
    Row(Preview1, b"sched_yield", 38, &[], true),
    Row(Wasix, b"fd_dup", 50, &[I32, I32], true),
    Row(Wasix, b"fd_pipe", 51, &[I32, I32], true),
    Row(Wasix, b"wx_fd_cloexec", 52, &[I32, I32], true),
    Row(Wasix, b"getcwd", 53, &[I32, I32, I32], true),
    Row(Wasix, b"chdir", 54, &[I32, I32], true),
    Row(Wasix, b"proc_id", 55, &[I32], true),
    Row(Wasix, b"proc_parent", 56, &[I32], true),
    Row(Wasix, b"proc_fork", 57, &[I32], true),
    Row(Wasix, b"proc_exec", 58, &[I32, I32, I32, I32], true),
    Row(Wasix, b"proc_spawn", 59, &[I32, I32, I32, I32, I32], true),
    Row(Wasix, b"proc_join", 60, &[I32, I32, I32], true),
    Row(Wasix, b"proc_signal", 61, &[I32, I32], true),
    Row(Wasix, b"thread_spawn", 62, &[I32, I32], true),
    Row(Wasix, b"thread_id", 63, &[I32], true),
    Row(Wasix, b"thread_join", 64, &[I32], true),
    Row(Wasix, b"thread_exit", 65, &[I32], false),
    Row(Wasix, b"thread_sleep", 66, &[I64], true),
    Row(Wasix, b"futex_wait", 67, &[I32, I32, I64, I32], true),
    Row(Wasix, b"futex_wake", 68, &[I32, I32, I32], true),
    Row(Wasix, b"callback_signal", 69, &[I32, I32], true),
    Row(Wasix, b"wx_sig_action", 70, &[I32, I32], true),
    Row(Wasix, b"wx_sig_mask", 71, &[I32, I64, I32], true),
];

/// The names of WASI preview 1 that answer nosys.
static NOSYS_NAMES: [&[u8]; 17] = [
    b"clock_res_get",
    b"fd_advise",
    b"fd_allocate",
    b"fd_datasync",
    b"fd_fdstat_set_rights",
    b"fd_filestat_set_times",
    b"fd_sync",
    b"path_filestat_set_times",
    b"path_link",
    b"path_readlink",
    b"path_symlink",
    b"proc_raise",
    b"random_get",
    b"sock_accept",
    b"sock_recv",
    b"sock_send",
    b"sock_shutdown",
];

/// The rows of the calls.
fn rows() -> &'static [Row]
    ensures { map call_of_row result.now ≡ calls }
{
    &CALLS
}

/// The names that answer nosys.
fn nosys_names() -> &'static [&'static [u8]]
    ensures { map (λ name. name.now) result.now ≡ nosys_names }
{
    &NOSYS_NAMES
}

/// The row of a module and a name, if there is one.
fn row_named<'a>(rows: &'a [Row], from: &[u8], name: &[u8]) -> Option<&'a Row>
    ensures { option_map (λ row. call_of_row row.now) result ≡ find (is_named from.now name.now) (map call_of_row rows.now) }
{
    for row in rows {
        if row.0.name() == from && row.1 == name {
            return Some(row);
        }
    }
    None
}

/// Whether a name is among some.
fn is_among(names: &[&'static [u8]], name: &[u8]) -> bool
    ensures { result ≡ list_any (λ known. bytes_eq known name.now) (map (λ known. known.now) names.now) }
{
    for known in names {
        if *known == name {
            return true;
        }
    }
    false
}

/// The results of a call.
fn results(gives: bool) -> &'static [ValType]
    ensures { result.now ≡ results_of gives }
{
    if gives { &[I32] } else { &[] }
}

/// The number of a call, where a function's type is that of the call.
fn number_with_type(row: &Row, of: &FuncType) -> Option<u16>
    ensures { result ≡ number_with_type of.now (call_of_row row.now) }
{
    if same_types(row.3, of.params.as_slice())
        && same_types(results(row.4), of.results.as_slice())
    {
        Some(row.2)
    } else {
        None
    }
}

/// Whether a name is one that answers nosys.
fn is_nosys(from: &[u8], name: &[u8]) -> bool
    ensures { result ≡ is_nosys from.now name.now }
{
    Preview1.name() == from && is_among(nosys_names(), name)
}

/// The number of the call that a function imported from this module, by this name and with this type, is; none where
/// it is no call, or one of another type.
pub fn call_number(from: &[u8], name: &[u8], of: &FuncType) -> Option<u16>
    ensures { result ≡ call_number from.now name.now of.now }
{
    if is_nosys(from, name) {
        if same_types(of.results.as_slice(), results(true)) {
            return Some(NOSYS);
        }
        return None;
    }
    match row_named(rows(), from, name) {
        Some(row) => number_with_type(row, of),
        None => None,
    }
}
