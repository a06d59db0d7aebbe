// The text of the guest tool `cat`.

/// `cat`: copies its files, or input.
pub(crate) const CAT: &str = r#";; cat FILES..
;;
;; Copies its files to output, one behind the other; without files it copies its input. A file that cannot be opened or
;; read is reported on descriptor 2, the others are still copied, and the status is then 1.
;;
;; A name without a slash in front is looked for in the current directory.
;;
;; Memory:     0  count of arguments     8  buffer list: address, length    20  the descriptor that was opened
;;             4  their bytes           16  count of bytes moved            32  texts
;;        65,536  the buffer, one page
;;       131,072  addresses of the arguments, then their bytes
(module
  (import "wasi_snapshot_preview1" "args_sizes_get"
    (func $args_sizes_get (param $count i32) (param $size i32) (result i32)))
  (import "wasi_snapshot_preview1" "args_get"
    (func $args_get (param $addresses i32) (param $bytes i32) (result i32)))
  (import "wasi_snapshot_preview1" "path_open"
    (func $path_open (param $directory i32) (param $lookup i32) (param $path i32) (param $length i32)
      (param $create i32) (param $rights i64) (param $inheriting i64) (param $flags i32) (param $opened i32)
      (result i32)))
  (import "wasi_snapshot_preview1" "fd_read"
    (func $fd_read (param $fd i32) (param $list i32) (param $buffers i32) (param $moved i32) (result i32)))
  (import "wasi_snapshot_preview1" "fd_write"
    (func $fd_write (param $fd i32) (param $list i32) (param $buffers i32) (param $moved i32) (result i32)))
  (import "wasi_snapshot_preview1" "fd_close" (func $fd_close (param $fd i32) (result i32)))
  (import "wasi_snapshot_preview1" "proc_exit" (func $proc_exit (param $status i32)))

  (memory (export "memory") 2)

  (global $count i32 (i32.const 0))
  (global $size i32 (i32.const 4))
  (global $list i32 (i32.const 8))
  (global $moved i32 (i32.const 16))
  (global $opened i32 (i32.const 20))
  (global $buffer i32 (i32.const 65536))
  (global $page i32 (i32.const 65536))

  ;; 1 after a file that could not be copied
  (global $status (mut i32) (i32.const 0))

  (data (i32.const 32) "cat: ")
  (data (i32.const 37) ": cannot open\n")
  (data (i32.const 51) ": cannot read\n")
  (data (i32.const 65) "cat: cannot write\n")
  (data (i32.const 83) "cat: cannot read the arguments\n")
  (data (i32.const 114) "input")

  ;; Writes the bytes to a descriptor, and gives 0 or the number of the error. One call may take fewer bytes than it is
  ;; given, and the loop goes on with those that are left.
  (func $write_all (param $fd i32) (param $from i32) (param $length i32) (result i32)
    (local $error i32)
    (block $end
      (loop $more
        (br_if $end (i32.eqz (local.get $length)))
        (i32.store (global.get $list) (local.get $from))
        (i32.store offset=4 (global.get $list) (local.get $length))
        (local.set $error
          (call $fd_write (local.get $fd) (global.get $list) (i32.const 1) (global.get $moved)))
        (br_if $end (local.get $error))
        (local.set $from (i32.add (local.get $from) (i32.load (global.get $moved))))
        (local.set $length (i32.sub (local.get $length) (i32.load (global.get $moved))))
        (br $more)))
    (local.get $error))

  ;; Writes a text to descriptor 2.
  (func $write_error (param $text i32) (param $length i32)
    (drop (call $write_all (i32.const 2) (local.get $text) (local.get $length))))

  ;; Writes a text to descriptor 2, and ends the process with status 1.
  (func $fail (param $text i32) (param $length i32)
    (call $write_error (local.get $text) (local.get $length))
    (call $proc_exit (i32.const 1))
    unreachable)

  ;; Writes `cat: NAME` and a text to descriptor 2, and goes on: the status will be 1.
  (func $report (param $name i32) (param $name_length i32) (param $text i32) (param $length i32)
    (call $write_error (i32.const 32) (i32.const 5))
    (call $write_error (local.get $name) (local.get $name_length))
    (call $write_error (local.get $text) (local.get $length))
    (global.set $status (i32.const 1)))

  ;; Reads from a descriptor into the buffer, and gives 0 or the number of the error. The count of bytes is 0 at the end.
  (func $read (param $fd i32) (result i32)
    (i32.store (global.get $list) (global.get $buffer))
    (i32.store offset=4 (global.get $list) (global.get $page))
    (call $fd_read (local.get $fd) (global.get $list) (i32.const 1) (global.get $moved)))

  ;; Copies a descriptor to output, up to its end; the name is that of the file.
  (func $copy (param $fd i32) (param $name i32) (param $name_length i32)
    (block $end
      (loop $more
        (if (call $read (local.get $fd))
          (then
            (call $report (local.get $name) (local.get $name_length) (i32.const 51) (i32.const 14))
            (br $end)))
        (br_if $end (i32.eqz (i32.load (global.get $moved))))
        (if (call $write_all (i32.const 1) (global.get $buffer) (i32.load (global.get $moved)))
          (then (call $fail (i32.const 65) (i32.const 18))))
        (br $more))))

  ;; Opens the file of a name for reading, and gives 0 or the number of the error. Descriptor -1 stands for the current
  ;; directory, and 2 is the right to read.
  (func $open (param $name i32) (param $length i32) (result i32)
    (call $path_open
      (i32.const -1) (i32.const 0) (local.get $name) (local.get $length)
      (i32.const 0) (i64.const 2) (i64.const 0) (i32.const 0) (global.get $opened)))

  ;; Copies the file of a name to output, or reports that it cannot be opened.
  (func $copy_file (param $name i32)
    (local $length i32)
    (local.set $length (call $text_length (local.get $name)))
    (if (call $open (local.get $name) (local.get $length))
      (then
        (call $report (local.get $name) (local.get $length) (i32.const 37) (i32.const 14))
        (return)))
    (call $copy (i32.load (global.get $opened)) (local.get $name) (local.get $length))
    (drop (call $fd_close (i32.load (global.get $opened)))))

  ;; How many bytes stand in front of the zero.
  (func $text_length (param $text i32) (result i32)
    (local $at i32)
    (local.set $at (local.get $text))
    (block $end
      (loop $next
        (br_if $end (i32.eqz (i32.load8_u (local.get $at))))
        (local.set $at (i32.add (local.get $at) (i32.const 1)))
        (br $next)))
    (i32.sub (local.get $at) (local.get $text)))

  ;; Puts the arguments into new pages at the end of the memory, and gives the address where the array of their
  ;; addresses begins. Their bytes stand behind the array.
  (func $read_arguments (result i32)
    (local $array i32) (local $length i32)
    (if (call $args_sizes_get (global.get $count) (global.get $size))
      (then (call $fail (i32.const 83) (i32.const 31))))
    (local.set $length (i32.shl (i32.load (global.get $count)) (i32.const 2)))
    (local.set $array (call $new_pages (i32.add (local.get $length) (i32.load (global.get $size)))))
    (if (call $args_get (local.get $array) (i32.add (local.get $array) (local.get $length)))
      (then (call $fail (i32.const 83) (i32.const 31))))
    (local.get $array))

  ;; Adds as many pages of 65,536 bytes as some bytes need, and gives the address where they begin.
  (func $new_pages (param $bytes i32) (result i32)
    (local $first i32)
    (local.set $first
      (memory.grow (i32.shr_u (i32.add (local.get $bytes) (i32.const 65535)) (i32.const 16))))
    (if (i32.eq (local.get $first) (i32.const -1))
      (then (call $fail (i32.const 83) (i32.const 31))))
    (i32.shl (local.get $first) (i32.const 16)))

  ;; Copies each of the files; argument 0 is the name of the program.
  (func $copy_files (param $array i32)
    (local $argument i32)
    (local.set $argument (i32.const 1))
    (block $end
      (loop $next
        (br_if $end (i32.ge_u (local.get $argument) (i32.load (global.get $count))))
        (call $copy_file
          (i32.load (i32.add (local.get $array) (i32.shl (local.get $argument) (i32.const 2)))))
        (local.set $argument (i32.add (local.get $argument) (i32.const 1)))
        (br $next))))

  (func (export "_start")
    (local $array i32)
    (local.set $array (call $read_arguments))
    (if (i32.lt_u (i32.load (global.get $count)) (i32.const 2))
      (then (call $copy (i32.const 0) (i32.const 114) (i32.const 5)))
      (else (call $copy_files (local.get $array))))
    (call $proc_exit (global.get $status))))
"#;
