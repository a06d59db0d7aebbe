// The text of the guest tool `echo`.

/// `echo`: prints its arguments.
pub(crate) const ECHO: &str = r#";; echo ARGS..
;;
;; Prints its arguments with single spaces between them, and a newline.
;;
;; The host stores the arguments one behind the other, each with a zero byte behind it. So the zeros become spaces,
;; the last one becomes the newline, and the bytes from argument 1 on are written as they then lie. Argument 0 is the
;; name of the program.
;;
;; Memory:     0  count of arguments     8  buffer list: address, length    32  texts
;;             4  their bytes           16  count of bytes moved
;;        65,536  addresses of the arguments, then their bytes
(module
  (import "wasi_snapshot_preview1" "args_sizes_get"
    (func $args_sizes_get (param $count i32) (param $size i32) (result i32)))
  (import "wasi_snapshot_preview1" "args_get"
    (func $args_get (param $addresses i32) (param $bytes i32) (result i32)))
  (import "wasi_snapshot_preview1" "fd_write"
    (func $fd_write (param $fd i32) (param $list i32) (param $buffers i32) (param $moved i32) (result i32)))
  (import "wasi_snapshot_preview1" "proc_exit" (func $proc_exit (param $status i32)))

  (memory (export "memory") 1)

  (global $count i32 (i32.const 0))
  (global $size i32 (i32.const 4))
  (global $list i32 (i32.const 8))
  (global $moved i32 (i32.const 16))

  (data (i32.const 32) "\n")
  (data (i32.const 33) "echo: cannot write\n")
  (data (i32.const 52) "echo: cannot read the arguments\n")

  ;; Writes the bytes to a descriptor, and gives 0 or the number of the error. One call may take fewer bytes than it is
  ;; given, and the loop goes on with those that are left.
  (func $write_all (param $fd i32) (param $from i32) (param $length i32) (result i32)
    (local $error i32)
    (block $end
      (loop $more
        (br_if $end (i32.eqz (local.get $length)))
        (i32.store (global.get $list) (local.get $from))
        (i32.store offset=4 (global.get $list) (local.get $length))
        (local.set $error
          (call $fd_write (local.get $fd) (global.get $list) (i32.const 1) (global.get $moved)))
        (br_if $end (local.get $error))
        (local.set $from (i32.add (local.get $from) (i32.load (global.get $moved))))
        (local.set $length (i32.sub (local.get $length) (i32.load (global.get $moved))))
        (br $more)))
    (local.get $error))

  ;; Writes a text to descriptor 2, and ends the process with status 1.
  (func $fail (param $text i32) (param $length i32)
    (drop (call $write_all (i32.const 2) (local.get $text) (local.get $length)))
    (call $proc_exit (i32.const 1))
    unreachable)

  ;; Writes the bytes to output.
  (func $print (param $from i32) (param $length i32)
    (if (call $write_all (i32.const 1) (local.get $from) (local.get $length))
      (then (call $fail (i32.const 33) (i32.const 19)))))

  ;; Puts the arguments into new pages at the end of the memory, and gives the address where the array of their
  ;; addresses begins. Their bytes stand behind the array.
  (func $read_arguments (result i32)
    (local $array i32) (local $length i32)
    (if (call $args_sizes_get (global.get $count) (global.get $size))
      (then (call $fail (i32.const 52) (i32.const 32))))
    (local.set $length (i32.shl (i32.load (global.get $count)) (i32.const 2)))
    (local.set $array (call $new_pages (i32.add (local.get $length) (i32.load (global.get $size)))))
    (if (call $args_get (local.get $array) (i32.add (local.get $array) (local.get $length)))
      (then (call $fail (i32.const 52) (i32.const 32))))
    (local.get $array))

  ;; Adds as many pages of 65,536 bytes as some bytes need, and gives the address where they begin.
  (func $new_pages (param $bytes i32) (result i32)
    (local $page i32)
    (local.set $page
      (memory.grow (i32.shr_u (i32.add (local.get $bytes) (i32.const 65535)) (i32.const 16))))
    (if (i32.eq (local.get $page) (i32.const -1))
      (then (call $fail (i32.const 52) (i32.const 32))))
    (i32.shl (local.get $page) (i32.const 16)))

  ;; Turns each zero byte from one address up to another into a space.
  (func $zeros_to_spaces (param $at i32) (param $end i32)
    (block $done
      (loop $next
        (br_if $done (i32.ge_u (local.get $at) (local.get $end)))
        (if (i32.eqz (i32.load8_u (local.get $at)))
          (then (i32.store8 (local.get $at) (i32.const 32))))
        (local.set $at (i32.add (local.get $at) (i32.const 1)))
        (br $next))))

  (func (export "_start")
    (local $array i32) (local $first i32) (local $end i32)
    (local.set $array (call $read_arguments))
    (if (i32.lt_u (i32.load (global.get $count)) (i32.const 2))
      (then
        (call $print (i32.const 32) (i32.const 1))
        (return)))
    (local.set $first (i32.load offset=4 (local.get $array)))
    ;; the bytes end behind the last argument's zero
    (local.set $end
      (i32.add
        (i32.add (local.get $array) (i32.shl (i32.load (global.get $count)) (i32.const 2)))
        (i32.load (global.get $size))))
    (call $zeros_to_spaces (local.get $first) (local.get $end))
    (i32.store8 (i32.sub (local.get $end) (i32.const 1)) (i32.const 10))
    (call $print (local.get $first) (i32.sub (local.get $end) (local.get $first)))))
"#;
