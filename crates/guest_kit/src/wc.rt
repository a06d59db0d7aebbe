// The text of the guest tool `wc`.

/// `wc`: counts lines and bytes.
pub(crate) const WC: &str = r#";; wc
;;
;; Counts its input, and prints the number of lines, a space, the number of bytes and a newline. A line is what a newline
;; ends, so that bytes behind the last newline are no line.
;;
;; Memory:     8  buffer list: address, length    32  texts
;;            16  count of bytes moved            80  the line that is printed; it ends in front of 128
;;        65,536  the buffer, one page
(module
  (import "wasi_snapshot_preview1" "fd_read"
    (func $fd_read (param $fd i32) (param $list i32) (param $buffers i32) (param $moved i32) (result i32)))
  (import "wasi_snapshot_preview1" "fd_write"
    (func $fd_write (param $fd i32) (param $list i32) (param $buffers i32) (param $moved i32) (result i32)))
  (import "wasi_snapshot_preview1" "proc_exit" (func $proc_exit (param $status i32)))

  (memory (export "memory") 2)

  (global $list i32 (i32.const 8))
  (global $moved i32 (i32.const 16))
  (global $line_end i32 (i32.const 128))
  (global $buffer i32 (i32.const 65536))
  (global $page i32 (i32.const 65536))

  (data (i32.const 32) "wc: cannot read\n")
  (data (i32.const 48) "wc: cannot write\n")

  ;; Writes the bytes to a descriptor, and gives 0 or the number of the error. One call may take fewer bytes than it is
  ;; given, and the loop goes on with those that are left.
  (func $write_all (param $fd i32) (param $from i32) (param $length i32) (result i32)
    (local $error i32)
    (block $end
      (loop $more
        (br_if $end (i32.eqz (local.get $length)))
        (i32.store (global.get $list) (local.get $from))
        (i32.store offset=4 (global.get $list) (local.get $length))
        (local.set $error
          (call $fd_write (local.get $fd) (global.get $list) (i32.const 1) (global.get $moved)))
        (br_if $end (local.get $error))
        (local.set $from (i32.add (local.get $from) (i32.load (global.get $moved))))
        (local.set $length (i32.sub (local.get $length) (i32.load (global.get $moved))))
        (br $more)))
    (local.get $error))

  ;; Writes a text to descriptor 2, and ends the process with status 1.
  (func $fail (param $text i32) (param $length i32)
    (drop (call $write_all (i32.const 2) (local.get $text) (local.get $length)))
    (call $proc_exit (i32.const 1))
    unreachable)

  ;; Reads input into the buffer, and gives the count of bytes, which is 0 at the end.
  (func $read (result i32)
    (i32.store (global.get $list) (global.get $buffer))
    (i32.store offset=4 (global.get $list) (global.get $page))
    (if (call $fd_read (i32.const 0) (global.get $list) (i32.const 1) (global.get $moved))
      (then (call $fail (i32.const 32) (i32.const 16))))
    (i32.load (global.get $moved)))

  ;; How many of the first bytes of the buffer are newlines.
  (func $newlines (param $length i32) (result i32)
    (local $at i32) (local $end i32) (local $found i32)
    (local.set $at (global.get $buffer))
    (local.set $end (i32.add (global.get $buffer) (local.get $length)))
    (block $done
      (loop $next
        (br_if $done (i32.ge_u (local.get $at) (local.get $end)))
        ;; the comparison gives 1 or 0
        (local.set $found
          (i32.add (local.get $found) (i32.eq (i32.load8_u (local.get $at)) (i32.const 10))))
        (local.set $at (i32.add (local.get $at) (i32.const 1)))
        (br $next)))
    (local.get $found))

  ;; Puts a byte in front of an address, and gives the address of the byte.
  (func $prepend_byte (param $before i32) (param $byte i32) (result i32)
    (local $at i32)
    (local.set $at (i32.sub (local.get $before) (i32.const 1)))
    (i32.store8 (local.get $at) (local.get $byte))
    (local.get $at))

  ;; Puts the decimal digits of a number in front of an address, the last digit first, and gives the address of the first.
  (func $prepend_number (param $before i32) (param $number i64) (result i32)
    (loop $digit
      (local.set $before
        (call $prepend_byte
          (local.get $before)
          (i32.add (i32.const 48) (i32.wrap_i64 (i64.rem_u (local.get $number) (i64.const 10))))))
      (local.set $number (i64.div_u (local.get $number) (i64.const 10)))
      (br_if $digit (i32.eqz (i64.eqz (local.get $number)))))
    (local.get $before))

  ;; Prints the line of the two numbers; it is built from its end.
  (func $print_counts (param $lines i64) (param $bytes i64)
    (local $at i32)
    (local.set $at (call $prepend_byte (global.get $line_end) (i32.const 10)))
    (local.set $at (call $prepend_number (local.get $at) (local.get $bytes)))
    (local.set $at (call $prepend_byte (local.get $at) (i32.const 32)))
    (local.set $at (call $prepend_number (local.get $at) (local.get $lines)))
    (if (call $write_all (i32.const 1) (local.get $at) (i32.sub (global.get $line_end) (local.get $at)))
      (then (call $fail (i32.const 48) (i32.const 17)))))

  (func (export "_start")
    (local $lines i64) (local $bytes i64) (local $length i32)
    (block $end
      (loop $more
        (local.set $length (call $read))
        (br_if $end (i32.eqz (local.get $length)))
        (local.set $lines
          (i64.add (local.get $lines) (i64.extend_i32_u (call $newlines (local.get $length)))))
        (local.set $bytes (i64.add (local.get $bytes) (i64.extend_i32_u (local.get $length))))
        (br $more)))
    (call $print_counts (local.get $lines) (local.get $bytes))))
"#;
