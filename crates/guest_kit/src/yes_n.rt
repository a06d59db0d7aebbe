// The text of the guest tool `yes_n`.

/// `yes_n`: prints a line N times.
pub(crate) const YES_N: &str = r#";; yes_n N
;;
;; Prints `y` N times, each with a newline. N is decimal digits, at most 4,294,967,295.
;;
;; Memory:     0  count of arguments     8  buffer list: address, length    32  texts
;;             4  their bytes           16  count of bytes moved
;;        65,536  the buffer, one page of lines
;;       131,072  addresses of the arguments, then their bytes
(module
  (import "wasi_snapshot_preview1" "args_sizes_get"
    (func $args_sizes_get (param $count i32) (param $size i32) (result i32)))
  (import "wasi_snapshot_preview1" "args_get"
    (func $args_get (param $addresses i32) (param $bytes i32) (result i32)))
  (import "wasi_snapshot_preview1" "fd_write"
    (func $fd_write (param $fd i32) (param $list i32) (param $buffers i32) (param $moved i32) (result i32)))
  (import "wasi_snapshot_preview1" "proc_exit" (func $proc_exit (param $status i32)))

  (memory (export "memory") 2)

  (global $count i32 (i32.const 0))
  (global $size i32 (i32.const 4))
  (global $list i32 (i32.const 8))
  (global $moved i32 (i32.const 16))
  (global $buffer i32 (i32.const 65536))
  (global $page i32 (i32.const 65536))

  (data (i32.const 32) "usage: yes_n N\n")
  (data (i32.const 47) "yes_n: cannot write\n")
  (data (i32.const 67) "yes_n: cannot read the arguments\n")

  ;; Writes the bytes to a descriptor, and gives 0 or the number of the error. One call may take fewer bytes than it is
  ;; given, and the loop goes on with those that are left.
  (func $write_all (param $fd i32) (param $from i32) (param $length i32) (result i32)
    (local $error i32)
    (block $end
      (loop $more
        (br_if $end (i32.eqz (local.get $length)))
        (i32.store (global.get $list) (local.get $from))
        (i32.store offset=4 (global.get $list) (local.get $length))
        (local.set $error
          (call $fd_write (local.get $fd) (global.get $list) (i32.const 1) (global.get $moved)))
        (br_if $end (local.get $error))
        (local.set $from (i32.add (local.get $from) (i32.load (global.get $moved))))
        (local.set $length (i32.sub (local.get $length) (i32.load (global.get $moved))))
        (br $more)))
    (local.get $error))

  ;; Writes a text to descriptor 2, and ends the process with status 1.
  (func $fail (param $text i32) (param $length i32)
    (drop (call $write_all (i32.const 2) (local.get $text) (local.get $length)))
    (call $proc_exit (i32.const 1))
    unreachable)

  ;; Writes how the tool is called, and ends the process.
  (func $fail_usage
    (call $fail (i32.const 32) (i32.const 15)))

  ;; Puts the arguments into new pages at the end of the memory, and gives the address where the array of their
  ;; addresses begins. Their bytes stand behind the array.
  (func $read_arguments (result i32)
    (local $array i32) (local $length i32)
    (if (call $args_sizes_get (global.get $count) (global.get $size))
      (then (call $fail (i32.const 67) (i32.const 33))))
    (local.set $length (i32.shl (i32.load (global.get $count)) (i32.const 2)))
    (local.set $array (call $new_pages (i32.add (local.get $length) (i32.load (global.get $size)))))
    (if (call $args_get (local.get $array) (i32.add (local.get $array) (local.get $length)))
      (then (call $fail (i32.const 67) (i32.const 33))))
    (local.get $array))

  ;; Adds as many pages of 65,536 bytes as some bytes need, and gives the address where they begin.
  (func $new_pages (param $bytes i32) (result i32)
    (local $first i32)
    (local.set $first
      (memory.grow (i32.shr_u (i32.add (local.get $bytes) (i32.const 65535)) (i32.const 16))))
    (if (i32.eq (local.get $first) (i32.const -1))
      (then (call $fail (i32.const 67) (i32.const 33))))
    (i32.shl (local.get $first) (i32.const 16)))

  ;; The number that the decimal digits in front of a zero byte spell. Ends the process where they spell none.
  (func $number (param $text i32) (result i64)
    (local $number i64) (local $digit i32)
    (loop $next
      ;; a byte below `0` wraps to a large number
      (local.set $digit (i32.sub (i32.load8_u (local.get $text)) (i32.const 48)))
      (if (i32.gt_u (local.get $digit) (i32.const 9))
        (then (call $fail_usage)))
      (local.set $number
        (i64.add
          (i64.mul (local.get $number) (i64.const 10))
          (i64.extend_i32_u (local.get $digit))))
      (if (i64.gt_u (local.get $number) (i64.const 4294967295))
        (then (call $fail_usage)))
      (local.set $text (i32.add (local.get $text) (i32.const 1)))
      (br_if $next (i32.load8_u (local.get $text))))
    (local.get $number))

  ;; Fills the buffer with lines.
  (func $fill_buffer
    (local $at i32)
    (loop $next
      ;; two lines of `y` and a newline, the first byte of four the lowest
      (i32.store (i32.add (global.get $buffer) (local.get $at)) (i32.const 0x0A790A79))
      (local.set $at (i32.add (local.get $at) (i32.const 4)))
      (br_if $next (i32.lt_u (local.get $at) (global.get $page)))))

  ;; How many of the bytes that are left are written next: a buffer at most.
  (func $chunk_length (param $left i64) (result i32)
    (if (result i32) (i64.lt_u (local.get $left) (i64.extend_i32_u (global.get $page)))
      (then (i32.wrap_i64 (local.get $left)))
      (else (global.get $page))))

  ;; Prints lines of that many bytes in all.
  (func $print_lines (param $left i64)
    (local $length i32)
    (block $end
      (loop $more
        (br_if $end (i64.eqz (local.get $left)))
        (local.set $length (call $chunk_length (local.get $left)))
        (if (call $write_all (i32.const 1) (global.get $buffer) (local.get $length))
          (then (call $fail (i32.const 47) (i32.const 20))))
        (local.set $left (i64.sub (local.get $left) (i64.extend_i32_u (local.get $length))))
        (br $more))))

  (func (export "_start")
    (local $array i32) (local $lines i64)
    (local.set $array (call $read_arguments))
    ;; the name of the program, and N
    (if (i32.ne (i32.load (global.get $count)) (i32.const 2))
      (then (call $fail_usage)))
    (local.set $lines (call $number (i32.load offset=4 (local.get $array))))
    (call $fill_buffer)
    (call $print_lines (i64.shl (local.get $lines) (i64.const 1)))))
"#;
